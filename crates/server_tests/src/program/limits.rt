//! The limits and the numbers of the faults, as the documents have them: numbers, and no names of constants.
use dd_book::Limits;
use dd_command::MOST_WORKERS;
use dd_limits::{MOST_EVENTS, MOST_JOBS, MOST_OPEN_JOBS, MOST_PASSES, MOST_SHAPES, MOST_SHARDS};
use dd_lines::{LONGEST_LINE, LONGEST_REPLY};
use dd_request::{PARTS, RESULTS, fault_numbers};

#[test]
fn the_limits_are_these_numbers(rt: HostRuntime) {
    let of_a_book = (MOST_OPEN_JOBS, MOST_JOBS, MOST_PASSES, MOST_EVENTS);
    let of_a_program = (MOST_WORKERS, MOST_SHARDS, MOST_SHAPES);
    let of_lines = (LONGEST_LINE, LONGEST_REPLY, RESULTS, PARTS);
    assert!(rt;
        of_a_book == (64, 1_048_576, 65_536, 1_048_576)
            && of_a_program == (64, 256, 65_536)
            && of_lines == (4_096, 1_024, 20, 20)
    );
}

#[test]
fn a_book_has_no_greater_limits(rt: HostRuntime) {
    let greatest = Limits::new(64, 1_048_576, 65_536, 1_048_576).is_some();
    let greater = Limits::new(65, 1_048_576, 65_536, 1_048_576).is_some()
        || Limits::new(64, 1_048_577, 65_536, 1_048_576).is_some()
        || Limits::new(64, 1_048_576, 65_537, 1_048_576).is_some()
        || Limits::new(64, 1_048_576, 65_536, 1_048_577).is_some();
    assert!(rt; greatest && !greater);
}

#[test]
fn the_faults_are_numbered_from_1_to_19(rt: HostRuntime) {
    let numbers = [
        fault_numbers::NOT_AN_OBJECT,
        fault_numbers::LINE_TOO_LONG,
        fault_numbers::WRONG_FIELD,
        fault_numbers::DEAL_TEXT,
        fault_numbers::HAND_LEFT_OUT,
        fault_numbers::CARD_TWICE,
        fault_numbers::UNEVEN_HANDS,
        fault_numbers::NO_CARD,
        fault_numbers::WRONG_TRUMP,
        fault_numbers::WRONG_FIRST,
        fault_numbers::WRONG_PLAYED,
        fault_numbers::WRONG_SOLUTIONS,
        fault_numbers::OPEN_JOBS,
        fault_numbers::RUN_FULL,
        fault_numbers::JOURNAL_FULL,
        fault_numbers::UNKNOWN_JOB,
        fault_numbers::JOB_ENDED,
        fault_numbers::SHUTTING_DOWN,
        fault_numbers::OUT_OF_MEMORY,
    ];
    assert!(rt;
        numbers
            == [
                1, 2, 3, 4, 5, 6, 7, 8, 9, 10, 11, 12, 13, 14, 15, 16, 17, 18, 19
            ]
    );
}
