//! Why the program can't listen at the address that it was given.
ghost use Rattle.std.specs.Prelude.{◌≡◌, ◌↔◌, ◌⊎◌};
ghost use Rattle.dd_streams.specs.ListenFaults.{line_of_fault};
ghost use Rattle.dd_streams.specs.declared.listen_fault.ListenFault.TheVariants.{NoAddress, InUse, Elsewhere, NotPermitted};

use std::io::ErrorKind;

/// Why an address can't be listened at.
#[derive(Clone, Copy, Debug, PartialEq, Eq)]
pub enum ListenFault {
    /// It is no address and port.
    NoAddress,
    /// Another program listens there.
    InUse,
    /// It belongs to another machine.
    Elsewhere,
    /// The system allows this user no such port.
    NotPermitted,
    /// Anything else.
    Other,
}

impl ListenFault {
    /// The fault that an error of this kind tells of.
    pub fn of(kind: ErrorKind) -> ListenFault
        ensures no_address { (result ≡ NoAddress)
            ↔ ((kind ≡ ErrorKind.InvalidInput) ⊎ (kind ≡ ErrorKind.NotFound)) }
        ensures in_use { (result ≡ InUse) ↔ (kind ≡ ErrorKind.AddrInUse) }
        ensures elsewhere { (result ≡ Elsewhere) ↔ (kind ≡ ErrorKind.AddrNotAvailable) }
        ensures not_permitted { (result ≡ NotPermitted) ↔ (kind ≡ ErrorKind.PermissionDenied) }
    {
        match kind {
            ErrorKind::InvalidInput | ErrorKind::NotFound => ListenFault::NoAddress,
            ErrorKind::AddrInUse => ListenFault::InUse,
            ErrorKind::AddrNotAvailable => ListenFault::Elsewhere,
            ErrorKind::PermissionDenied => ListenFault::NotPermitted,
            _ => ListenFault::Other,
        }
    }

    /// The line that the standard error gets of it, with its line feed.
    pub(crate) fn line(self) -> &'static str
        ensures { result.now ≡ line_of_fault self }
    {
        match self {
            ListenFault::NoAddress => {
                "ddserve: listen failed: that is no address; give one as 127.0.0.1:4100 or [::1]:4100\n"
            }
            ListenFault::InUse => "ddserve: listen failed: the address is in use\n",
            ListenFault::Elsewhere => {
                "ddserve: listen failed: the address is not one of this machine's\n"
            }
            ListenFault::NotPermitted => {
                "ddserve: listen failed: not permitted; ports below 1024 often are not\n"
            }
            ListenFault::Other => "ddserve: listen failed\n",
        }
    }
}
