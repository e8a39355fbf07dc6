use crate::rows::{is_bar, is_line_feed, is_space};
use dd_cards::{Hands, Seat, Suit};
use dd_pbn::{PbnFault, read_deal, read_tag, write_deal};
use std::test::*;

fn is_semicolon(byte: &u8) -> bool {
    *byte == b';'
}

// The number of this hexadecimal text.
fn number(digits: &[u8]) -> u16 {
    let mut number: u16 = 0;
    for digit in digits {
        let value = if *digit < b'a' {
            digit.wrapping_sub(b'0')
        } else {
            digit.wrapping_sub(b'a' - 10)
        };
        number = number.wrapping_mul(16).wrapping_add(value as u16);
    }
    number
}

// Has the seat these spades, hearts, diamonds and clubs? Bit r of a number stands for the rank r.
fn holds(deal: &Hands, seat: Seat, masks: &[u8]) -> bool {
    let mut masks = masks.split(is_space);
    for suit in [Suit::Spades, Suit::Hearts, Suit::Diamonds, Suit::Clubs] {
        if masks.next().map(number) != Some(deal.holding(seat, suit).mask()) {
            return false;
        }
    }
    masks.next().is_none()
}

// A text, and what North, East, South and West hold.
const SPELLED: &[u8] = b"N:A.2.. K.A.. Q.K.. J.Q..\
|4000 4 0 0|2000 4000 0 0|1000 2000 0 0|800 1000 0 0\n\
e:.k.. ..q. ...j 2a...\
|4004 0 0 0|0 2000 0 0|0 0 1000 0|0 0 0 800\n\
S:..q. ...J 2a... .K..\
|4004 0 0 0|0 2000 0 0|0 0 1000 0|0 0 0 800\n\
w:2TaJ6Q3K87954... ... .AKQJT98765432.. ..akqjt98765432.\
|0 0 0 0|0 7ffc 0 0|0 0 7ffc 0|7ffc 0 0 0\n\
N:AKQ.AKQ.AKQ.AKQJ J852.J85.J85.T74 T74.T742.T74.963 963.963.9632.852\
|7000 7000 7000 7800|924 920 920 490|490 494 490 248|248 248 24c 124\n\
N:A... K... Q... ...|4000 0 0 0|2000 0 0 0|1000 0 0 0|0 0 0 0\n\
N:... ... ... ...|0 0 0 0|0 0 0 0|0 0 0 0|0 0 0 0";

// Does the text of a row spell the hands after it?
fn spells(row: &[u8]) -> bool {
    let mut fields = row.split(is_bar);
    let Ok(deal) = read_deal(fields.next().unwrap_or(&[])) else {
        return false;
    };
    for seat in [Seat::North, Seat::East, Seat::South, Seat::West] {
        if !holds(&deal, seat, fields.next().unwrap_or(&[])) {
            return false;
        }
    }
    fields.next().is_none()
}

#[test]
fn a_text_spells_the_hands_from_its_letter_clockwise(rt: HostRuntime) {
    for row in SPELLED.split(is_line_feed) {
        assert!(rt; spells(row), "at {row:?}");
    }
}

// A space that begins a row is written \x20.
const SAME_DEALS: &[u8] = b"N:32... K4... AQ... 65...\n\
n:23... 4k... qA... 56...\n\
E:K4... AQ... 65... 32...\n\
e:k4... aq... 65... 32...\n\
S:AQ... 65... 32... K4...\n\
s:aQ... 65... 32... 4K...\n\
W:65... 32... K4... AQ...\n\
w:56... 23... 4K... QA...\n\
\x20N:32... K4... AQ... 65...\n\
\t \tN:32... K4... AQ... 65...\n\
N: 32... K4... AQ... 65...\n\
N:\t\t32... K4... AQ... 65...\n\
N:32...  K4...\tAQ... \t 65...\n\
N:32... K4... AQ... 65... \n\
N:32... K4... AQ... 65...\t ";

#[test]
fn blanks_and_case_change_no_deal(rt: HostRuntime) -> Result<(), Fail> {
    for text in SAME_DEALS.split(is_line_feed) {
        let deal = read_deal(text).ok().ok_or("the text spells a deal")?;
        let written = write_deal(rt.alloc(), &deal)?;
        assert!(rt; written.as_bytes() == b"N:32... K4... AQ... 65...".as_slice());
    }
    Ok(())
}

const TAGS: &[u8] = b"[Deal \"e:k4... aq... 65... 32...\"]\n\
[deal\"N:32... K4... AQ... 65...\"]\n\
[DEAL\t\"N:32... K4... AQ... 65...\"]\n\
\x20\t[ \tdEaL \t\" \tN: 32... K4... AQ... 65... \t\" \t] \t";

#[test]
fn a_tag_holds_a_value(rt: HostRuntime) -> Result<(), Fail> {
    for text in TAGS.split(is_line_feed) {
        let deal = read_tag(text).ok().ok_or("the tag spells a deal")?;
        let written = write_deal(rt.alloc(), &deal)?;
        assert!(rt; written.as_bytes() == b"N:32... K4... AQ... 65...".as_slice());
    }
    Ok(())
}

// What is written of a text's deal, and the text.
const WRITTEN: &[u8] = b"N:... .AKQJT98765432.. ..AKQJT98765432. AKQJT98765432...\
|W:2TaJ6Q3K87954... ... .AKQJT98765432.. ..akqjt98765432.\n\
N:AKQ.AKQ.AKQ.AKQJ J852.J85.J85.T74 T74.T742.T74.963 963.963.9632.852\
|N:AKQ.AKQ.AKQ.AKQJ J852.J85.J85.T74 T74.T742.T74.963 963.963.9632.852\n\
N:... ... ... ...|S:... ... ... ...";

#[test]
fn what_is_written_is_read_back(rt: HostRuntime) -> Result<(), Fail> {
    for row in WRITTEN.split(is_line_feed) {
        let mut fields = row.split(is_bar);
        let canon = fields.next().unwrap_or(&[]);
        for text in [fields.next().unwrap_or(&[]), canon] {
            let deal = read_deal(text).ok().ok_or("the text spells a deal")?;
            let written = write_deal(rt.alloc(), &deal)?;
            assert!(rt; written.as_bytes() == canon);
        }
    }
    Ok(())
}

// The fault that a row names, and its text.
fn fault_and_text(row: &[u8]) -> (PbnFault, &[u8]) {
    let mut fields = row.split(is_bar);
    let name = fields.next().unwrap_or(&[]);
    let fault = if name == b"twice".as_slice() {
        PbnFault::Twice
    } else if name == b"absent".as_slice() {
        PbnFault::Absent
    } else {
        PbnFault::Grammar
    };
    (fault, fields.next().unwrap_or(&[]))
}

// Rows end in semicolons, since texts hold line feeds.
const NO_DEALS: &[u8] = b"twice|N:AA... K2... Q3... J4...;\
twice|N:Aa... K2... Q3... J4...;\
twice|N:A... K... Q... A...;\
twice|N:... ... ...5 ...5;\
absent|N:A... - Q... J...;\
absent|N:- - - -;\
absent|E:... ... ... -;\
absent|N:A... A... - J...;\
absent|N:- AA... Q... J...;\
grammar|;\
grammar| \t;\
grammar|N;\
grammar|N:;\
grammar|N:A... - Q... J..;\
grammar|N:AA... K... Q... J.;\
grammar|N:A... - Q... J... -;\
grammar|N:A.. K... Q... J...;\
grammar|N:A.... K... Q... J...;\
grammar|N:A... K... Q...;\
grammar|N:A... K... Q... ;\
grammar|N:A... K... Q... J... T...;\
grammar|N:A...K... Q... J...;\
grammar|N:A...-Q... J... T...;\
grammar|N:A... --- Q... J...;\
grammar|N:A... K-... Q... J...;\
grammar|N :A... K... Q... J...;\
grammar|N:A ... K... Q... J...;\
grammar|N:A. .. K... Q... J...;\
grammar|N:A...\nK... Q... J...;\
grammar|N:A... K... Q... J...\n;\
grammar|N:A... K... Q... J...\0;\
grammar|N:10... K... Q... J...;\
grammar|N:A1... K... Q... J...;\
grammar|N:B... K... Q... J...;\
grammar|N:r... K... Q... J...;\
grammar|N:A... K... Q... J\xff...;\
grammar|X:A... K... Q... J...;\
grammar|A... K... Q... J...;\
grammar|[Deal \"N:A... K... Q... J...\"]";

#[test]
fn a_text_without_a_deal_has_its_first_fault(rt: HostRuntime) {
    for row in NO_DEALS.split(is_semicolon) {
        let (fault, text) = fault_and_text(row);
        assert!(rt; read_deal(text).err() == Some(fault), "at {text:?}");
    }
}

const NO_TAGS: &[u8] = b"twice|[Deal \"N:AA... K2... Q3... J4...\"];\
absent|[Deal \"N:A... - Q... J...\"];\
absent|[Deal \"N:A... - A... J...\"];\
grammar|[Deal \"N:A... - Q... J...\";\
grammar|;\
grammar|[Deal \"\"];\
grammar|N:A... K... Q... J...;\
grammar|[Deal N:A... K... Q... J...];\
grammar|[Dealer \"N:A... K... Q... J...\"];\
grammar|[Dea \"N:A... K... Q... J...\"];\
grammar|[De al \"N:A... K... Q... J...\"];\
grammar|[Deal \"N:A... K... Q... J...\"]];\
grammar|[Deal \"N:A... K... Q... J...\" x];\
grammar|[Deal \"N:A... K... Q... J...\"\"];\
grammar|[[Deal \"N:A... K... Q... J...\"]";

#[test]
fn a_tag_without_a_deal_has_its_first_fault(rt: HostRuntime) {
    for row in NO_TAGS.split(is_semicolon) {
        let (fault, text) = fault_and_text(row);
        assert!(rt; read_tag(text).err() == Some(fault), "at {text:?}");
    }
}
