//! What holds of the journals of all desks.
ghost use Rattle.dd_desk.specs.Reserve.{ReserveServes};

/// After any journal that one thread could have made, and that has room for what is reserved, each call that an event is
/// reserved for has room, whoever makes it. And the journal has room for what is reserved then. So each job that was taken can
/// end, by its finishes or by a cancel, and its caller can be told so once.
pub fn reserve_serves()
    ensures { ReserveServes }
{}
