//! How a run is, as a reply tells it.
ghost use Rattle.std.specs.Prelude.{◌≡◌, ◌+◌, ◌≤◌, ◌++◌, decimal};
ghost use Rattle.arrayvec.specs.ArrayString.{array_string_len};
ghost use Rattle.dd_wire.specs.HealthReplies.{health_text};

use crate::line_reply::LONGEST_ANSWER;
use dd_lines::{LONGEST_REPLY, ReplyText};
use itoa::Buffer;

/// How a run is at one moment.
#[derive(Clone, Copy, Debug, PartialEq, Eq)]
pub struct Health {
    /// How many events its journal still has room for.
    pub events_left: u64,
    /// How many jobs of the run are open, of all connections.
    pub jobs: u64,
    /// How many workers it has.
    pub workers: u64,
}

/// The reply that tells it: `{"events_left":e,"jobs":j,"workers":w}`.
pub fn write_health(health: &Health) -> ReplyText
    ensures text { result.bytes ≡ health_text health.now }
    ensures bound { array_string_len result ≤ LONGEST_ANSWER }
{
    let mut text = ReplyText::new();
    text.push_str("{\"events_left\":");
    push_count(&mut text, health.events_left);
    text.push_str(",\"jobs\":");
    push_count(&mut text, health.jobs);
    text.push_str(",\"workers\":");
    push_count(&mut text, health.workers);
    text.push_str("}");
    text
}

// Appends a number in decimal.
fn push_count(text: &mut ReplyText, count: u64)
    requires { array_string_len text.old + 20 ≤ LONGEST_REPLY }
    ensures bytes { text.new.bytes ≡ text.old.bytes ++ decimal count }
    ensures bound { array_string_len text.new ≤ array_string_len text.old + 20 }
{
    let mut buffer = Buffer::new();
    text.push_str(buffer.format(count));
}
