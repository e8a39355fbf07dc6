use dd_wire::{Fault, write_fault, write_spent};

#[test]
fn a_spent_budget_is_told(rt: HostRuntime) {
    assert_eq!(rt; write_spent().as_str(), "{\"state\":\"spent\"}");
}

#[test]
fn a_fault_is_spelled_by_its_number(rt: HostRuntime) {
    let rows = [
        (Fault::NotAnObject, "{\"fault\":1}"),
        (Fault::LineTooLong, "{\"fault\":2}"),
        (Fault::WrongField, "{\"fault\":3}"),
        (Fault::DealText, "{\"fault\":4}"),
        (Fault::UnevenHands, "{\"fault\":7}"),
        (Fault::NoCard, "{\"fault\":8}"),
        (Fault::WrongTrump, "{\"fault\":9}"),
        (Fault::WrongFirst, "{\"fault\":10}"),
        (Fault::WrongSolutions, "{\"fault\":12}"),
        (Fault::OutOfMemory, "{\"fault\":19}"),
    ];
    for (fault, text) in rows {
        assert_eq!(rt; write_fault(fault).as_str(), text);
    }
}
