//! The tags that are wanted, by their names.
ghost use Rattle.std.specs.Prelude.{◌≡◌, ◌+◌, ◌-◌, ◌<◌, [], drop, length};
ghost use Rattle.dd_streams.specs.Tags.{named_in, no_tags, wanted_by, with_tag};

use dd_file::Wanted;

/// The byte between two names.
const COMMA: u8 = b',';

/// None of the tags.
const NO_TAGS: Wanted = Wanted {
    tricks: false,
    score: false,
    contract: false,
    table: false,
};

/// The tags that the text names, with commas between them: all four, where it is empty. None where it names another.
#[tactic(auto, unfolding(crate::specs::Tags::wanted_by))]
pub(crate) fn wanted_by(text: &[u8]) -> Option<Wanted>
    ensures { result ≡ wanted_by text.now }
{
    match text {
        [] => Some(Wanted::ALL),
        _ => named_in(text),
    }
}

// The tags of these names.
fn named_in(text: &[u8]) -> Option<Wanted>
    ensures { result ≡ named_in no_tags [] text.now }
{
    let mut wanted = NO_TAGS;
    // The text from the name on that has begun, and how many of its bytes belong to it.
    let mut rest = text;
    let mut length = 0;
    while length < rest.len() {
        if rest[length] == COMMA {
            wanted = with_tag(&rest[..length], wanted)?;
            rest = after(rest, length);
            length = 0;
        } else {
            length = one_more(rest, length);
        }
    }
    with_tag(rest, wanted)
}

// One more, where the text goes on.
fn one_more(rest: &[u8], at: usize) -> usize
    requires { at < length rest.now }
    ensures { result ≡ at + 1 }
{
    let _ = rest.len();
    at + 1
}

// What follows this byte.
fn after(rest: &[u8], at: usize) -> &[u8]
    requires { at < length rest.now }
    ensures text { result.now ≡ drop (at + 1) rest.now }
    ensures len { length result.now < length rest.now - at }
{
    &rest[at + 1..]
}

// The tag of this name too.
fn with_tag(name: &[u8], wanted: Wanted) -> Option<Wanted>
    ensures { result ≡ with_tag name.now wanted }
{
    let mut more = wanted;
    if name == b"DoubleDummyTricks".as_slice() {
        more.tricks = true;
    } else if name == b"OptimumScore".as_slice() {
        more.score = true;
    } else if name == b"ParContract".as_slice() {
        more.contract = true;
    } else if name == b"OptimumResultTable".as_slice() {
        more.table = true;
    } else {
        return None;
    }
    Some(more)
}
