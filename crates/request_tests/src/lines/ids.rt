//! Lines with ids, each told with its own reply.
use crate::devices::{Pieces, Taker};
use dd_bounds::NoTable;
use dd_lines::CountedDevice;
use dd_solve::DoubleDummy;
use dd_tool::tell_lines;

/// Lines with ids of which two are the same, without one, and with a fault.
const LINES: &[u8] = br#"{"do":"table","deal":"N:A... K... Q... J...","id":1}
{"do":"solve","deal":"N:A... K... Q... J...","trump":4,"first":0,"solutions":3,"id":"two"}
{"do":"solve","deal":"N:A... K... Q... J...","trump":4,"first":0,"solutions":3}
{"do":"solve","deal":"N:A... K... Q... J...","trump":4,"solutions":3,"id":1}
"#;

/// Their replies, and those where they are not explained.
const REPLIES: &[u8] = br#"{"id":1,"table":[[1,0,1,0],[1,0,1,0],[1,0,1,0],[1,0,1,0],[1,0,1,0]]}
{"id":"two","cards":[{"equals":0,"rank":14,"score":1,"suit":0}]}
{"cards":[{"equals":0,"rank":14,"score":1,"suit":0}]}
{"id":1,"fault":3,"field":"first","text":"a field is missing, unknown or of the wrong kind"}
"#;

const PLAIN_REPLIES: &[u8] = br#"{"fault":3}
{"fault":3}
{"cards":[{"equals":0,"rank":14,"score":1,"suit":0}]}
{"fault":3}
"#;

#[test]
fn each_id_is_told_with_the_reply_to_its_line(rt: HostRuntime) {
    for (explain, replies) in [(true, REPLIES), (false, PLAIN_REPLIES)] {
        let mut reader = CountedDevice::new(Pieces::of(LINES));
        let mut writer = CountedDevice::new(Taker {
            taken: Vec::new(rt.alloc()),
            most: 7,
            room: usize::MAX,
        });
        let mut buffer = [0; 5];
        let result = tell_lines(
            rt.alloc(),
            &mut reader,
            &mut writer,
            &DoubleDummy,
            &mut NoTable,
            None,
            explain,
            &mut buffer,
        );
        assert_eq!(rt; result, Ok(()));
        assert_eq!(rt; writer.into_inner().taken.as_slice(), replies);
    }
}
