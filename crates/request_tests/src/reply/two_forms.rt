//! Lines of the usual forms, which are read in one pass, and lines that just aren't of one: each has the same reply with a space
//! before its last brace, and is then read as JSON.
use super::{par, worked};
use crate::rows::{after_bar, before_bar, spaced};
use dd_bounds::NoTable;
use dd_solve::DoubleDummy;
use dd_tool::reply_to_line;
use std::alloc::{AllocError, Global};
use std::test::Fail;

/// Each row is a line for cards of a position, a bar and its reply without a budget.
const CARDS: &[u8] =
    br#"{"do":"solve","deal":"N:A... K... Q... J...","trump":4,"first":0,"solutions":3}|{"cards":[{"equals":0,"rank":14,"score":1,"suit":0}]}
{"trump":4,"solutions":3,"first":0,"do":"solve","deal":"N:A... K... Q... J...","played":[]}|{"cards":[{"equals":0,"rank":14,"score":1,"suit":0}]}
{"do":"solve","deal":"N:... ... Q... J...","trump":4,"first":0,"played":[[0,14],[0,13]],"solutions":3}|{"cards":[{"equals":0,"rank":12,"score":1,"suit":0}]}
{"do":"solve","deal":"N:... ... ... J...","trump":4,"first":0,"played":[[0,14],[0,13],[0,12]],"solutions":3}|{"cards":[{"equals":0,"rank":11,"score":0,"suit":0}]}
{"do":"solve","deal":"N:A... K... Q... J...","trump":4,"first":0,"played":[[0,2],[0,3],[0,4],[0,5]],"solutions":3}|{"fault":11}
{"do":"solve","deal":"N:A... K... Q... J...","trump":4,"first":0,"played":[[0,15]],"solutions":3}|{"fault":11}
{"do":"solve","deal":"N:A... K... Q... J...","trump":4,"first":0,"played":[[4,14]],"solutions":3}|{"fault":11}
{"do":"solve","deal":"N:A... K... Q... J...","trump":4,"first":0,"played":[[0,100]],"solutions":3}|{"fault":11}
{"do":"solve","deal":"N:A... K... Q... J...","trump":4,"first":0,"played":[[0]],"solutions":3}|{"fault":3}
{"do":"solve","deal":"N:A... K... Q... J...","trump":4,"first":0,"played":[[0,2,3]],"solutions":3}|{"fault":3}
{"do":"solve","deal":"N:A... K... Q... J...","trump":4,"first":0,"played":[0,2],"solutions":3}|{"fault":3}
{"do":"solve","deal":"N:A... K... Q... J...","trump":4,"first":0,"played":[[0,14]],"solutions":3}|{"fault":6}
{"do":"solve","deal":"N:A... K... Q... J...","trump":4,"first":0,"played":[[0,10]],"solutions":3}|{"fault":7}
{"do":"solve","deal":"N:... ... ... ...","trump":4,"first":0,"solutions":3}|{"fault":8}
{"do":"solve","deal":"N:A2... K... Q... J...","trump":4,"first":0,"solutions":3}|{"fault":7}
{"do":"solve","deal":"N:AA... K2... Q3... J4...","trump":4,"first":0,"solutions":3}|{"fault":6}
{"do":"solve","deal":"N:A... - Q... J...","trump":4,"first":0,"solutions":3}|{"fault":5}
{"do":"solve","deal":"N:A.. K... Q... J...","trump":4,"first":0,"solutions":3}|{"fault":4}
{"do":"solve","deal":"","trump":4,"first":0,"solutions":3}|{"fault":4}
{"do":"solve","deal":"N:A... K... Q... J...","trump":5,"first":0,"solutions":3}|{"fault":9}
{"do":"solve","deal":"N:A... K... Q... J...","trump":10,"first":0,"solutions":3}|{"fault":9}
{"do":"solve","deal":"N:A... K... Q... J...","trump":99,"first":0,"solutions":3}|{"fault":9}
{"do":"solve","deal":"N:A... K... Q... J...","trump":100,"first":0,"solutions":3}|{"fault":9}
{"do":"solve","deal":"N:A... K... Q... J...","trump":00,"first":0,"solutions":3}|{"fault":1}
{"do":"solve","deal":"N:A... K... Q... J...","trump":01,"first":0,"solutions":3}|{"fault":1}
{"do":"solve","deal":"N:A... K... Q... J...","trump":04,"first":0,"solutions":3}|{"fault":1}
{"do":"solve","deal":"N:A... K... Q... J...","trump":-0,"first":0,"solutions":3}|{"fault":3}
{"do":"solve","deal":"N:A... K... Q... J...","trump":-1,"first":0,"solutions":3}|{"fault":3}
{"do":"solve","deal":"N:A... K... Q... J...","trump":1e1,"first":0,"solutions":3}|{"fault":3}
{"do":"solve","deal":"N:A... K... Q... J...","trump":1.0,"first":0,"solutions":3}|{"fault":3}
{"do":"solve","deal":"N:A... K... Q... J...","trump":"4","first":0,"solutions":3}|{"fault":3}
{"do":"solve","deal":"N:A... K... Q... J...","trump":null,"first":0,"solutions":3}|{"fault":3}
{"do":"solve","deal":"N:A... K... Q... J...","trump":,"first":0,"solutions":3}|{"fault":1}
{"do":"solve","deal":"N:A... K... Q... J...","trump":4,"first":4,"solutions":3}|{"fault":10}
{"do":"solve","deal":"N:A... K... Q... J...","trump":4,"first":10,"solutions":3}|{"fault":10}
{"do":"solve","deal":"N:A... K... Q... J...","trump":4,"first":100,"solutions":3}|{"fault":10}
{"do":"solve","deal":"N:A... K... Q... J...","trump":4,"first":0,"solutions":0}|{"fault":12}
{"do":"solve","deal":"N:A... K... Q... J...","trump":4,"first":0,"solutions":4}|{"fault":12}
{"do":"solve","deal":"N:A... K... Q... J...","trump":4,"first":0,"solutions":10}|{"fault":12}
{"do":"solve","deal":"N:A... K... Q... J...","trump":4,"first":0,"solutions":100}|{"fault":12}
{"deal":"N:A... K... Q... J...","trump":4,"first":0,"solutions":3}|{"fault":3}
{"do":"solve","trump":4,"first":0,"solutions":3}|{"fault":3}
{"do":"solve","deal":"N:A... K... Q... J...","first":0,"solutions":3}|{"fault":3}
{"do":"solve","deal":"N:A... K... Q... J...","trump":4,"solutions":3}|{"fault":3}
{"do":"solve","deal":"N:A... K... Q... J...","trump":4,"first":0}|{"fault":3}
{"do":"solve","deal":"N:A... K... Q... J...","trump":4,"first":0,"solutions":3,"x":1}|{"fault":3}
{"do":"solve","deal":"N:A... K... Q... J...","trump":4,"first":0,"solutions":3,"dealer":0}|{"fault":3}
{"do":"solve","deal":"N:A... K... Q... J...","trump":4,"first":0,"solutions":3,"side":0}|{"fault":3}
{"do":"solve","deal":"N:A... K... Q... J...","trump":4,"first":0,"solutions":3,"vulnerable":0}|{"fault":3}
{"do":"solve","deal":"N:A... K... Q... J...","trump":4,"first":0,"solutions":3,"wait":0}|{"cards":[{"equals":0,"rank":14,"score":1,"suit":0}]}
{"do":"solve","deal":"N:A... K... Q... J...","trump":4,"first":0,"solutions":2,"target":1}|{"cards":[{"equals":0,"rank":14,"score":1,"suit":0}]}
{"do":"solve","deal":"N:A... K... Q... J...","trump":5,"trump":4,"first":0,"solutions":3}|{"cards":[{"equals":0,"rank":14,"score":1,"suit":0}]}
{"do":"solve","deal":"N:A... K... Q... J...","trump":4,"first":0,"solutions":3,"trump":5}|{"fault":9}
{"do":"solve","deal":"N:A... K... Q... J...","trump":4,"first":0,"solutions":3,"do":"par"}|{"fault":3}
{"do":"solve","deal":"N:A... K... Q... J...","trump":4,"first":0,"solutions":3,}|{"fault":1}
{"deal":"N:A... K... Q... J...","do":"Solve","trump":4,"first":0,"solutions":3}|{"fault":3}
{"deal":"N:A... K... Q... J...","do":"table","trump":4,"first":0,"solutions":3}|{"fault":3}"#;

/// The same of par.
const PAR: &[u8] =
    br#"{"do":"par","table":[[6,6,6,6],[6,6,6,6],[6,6,6,6],[6,6,6,6],[7,7,7,7]],"dealer":0,"vulnerable":0}|{"contracts":[{"declarers":[0],"level":1,"tricks":7,"trump":4}],"score":90}
{"vulnerable":0,"side":0,"table":[[6,6,6,6],[6,6,6,6],[6,6,6,6],[6,6,6,6],[7,7,7,7]],"do":"par"}|{"contracts":[{"declarers":[0,2],"level":1,"tricks":7,"trump":4}],"score":90}
{"do":"par","table":[[6,6,6,6],[6,6,6,6],[6,6,6,6],[6,6,6,6],[7,7,7,7]],"dealer":4,"vulnerable":0}|{"fault":20}
{"do":"par","table":[[6,6,6,6],[6,6,6,6],[6,6,6,6],[6,6,6,6],[7,7,7,7]],"dealer":10,"vulnerable":0}|{"fault":20}
{"do":"par","table":[[6,6,6,6],[6,6,6,6],[6,6,6,6],[6,6,6,6],[7,7,7,7]],"dealer":100,"vulnerable":0}|{"fault":20}
{"do":"par","table":[[6,6,6,6],[6,6,6,6],[6,6,6,6],[6,6,6,6],[7,7,7,7]],"side":2,"vulnerable":0}|{"fault":20}
{"do":"par","table":[[6,6,6,6],[6,6,6,6],[6,6,6,6],[6,6,6,6],[7,7,7,7]],"dealer":0,"vulnerable":4}|{"fault":21}
{"do":"par","table":[[6,6,6,6],[6,6,6,6],[6,6,6,6],[6,6,6,6],[7,7,7,7]],"side":0,"vulnerable":100}|{"fault":21}
{"do":"par","table":[[6,6,6,6],[6,6,6,6],[6,6,6,6],[6,6,6,6],[7,7,7,14]],"dealer":0,"vulnerable":0}|{"fault":22}
{"do":"par","table":[[6,6,6,6],[6,6,6,6],[6,6,6,6],[6,6,6,6],[99,7,7,7]],"dealer":0,"vulnerable":0}|{"fault":22}
{"do":"par","table":[[6,6,6,6],[6,6,6,6],[6,6,6,6],[6,6,6,6],[7,7,7,100]],"dealer":0,"vulnerable":0}|{"fault":22}
{"do":"par","table":[[6,6,6,6],[6,6,6,6],[6,6,6,6],[6,6,6,6],[7,7,7,07]],"dealer":0,"vulnerable":0}|{"fault":1}
{"do":"par","table":[[6,6,6,6],[6,6,6,6],[6,6,6,6],[6,6,6,6],[7,7,7,7.0]],"dealer":0,"vulnerable":0}|{"fault":3}
{"do":"par","table":[[6,6,6,6],[6,6,6,6],[6,6,6,6],[6,6,6,6],[7,7,7,-7]],"dealer":0,"vulnerable":0}|{"fault":3}
{"do":"par","table":[[6,6,6,6],[6,6,6,6],[6,6,6,6],[6,6,6,6],[7,7,7]],"dealer":0,"vulnerable":0}|{"fault":3}
{"do":"par","table":[[6,6,6,6],[6,6,6,6],[6,6,6,6],[6,6,6,6],[7,7,7,7,7]],"dealer":0,"vulnerable":0}|{"fault":3}
{"do":"par","table":[[6,6,6,6],[6,6,6,6],[6,6,6,6],[6,6,6,6],[7,7,7,7],[7,7,7,7]],"dealer":0,"vulnerable":0}|{"fault":3}
{"do":"par","table":[],"dealer":0,"vulnerable":0}|{"fault":3}
{"do":"par","dealer":0,"vulnerable":0}|{"fault":3}
{"do":"par","table":[[6,6,6,6],[6,6,6,6],[6,6,6,6],[6,6,6,6],[7,7,7,7]],"vulnerable":0}|{"fault":3}
{"do":"par","table":[[6,6,6,6],[6,6,6,6],[6,6,6,6],[6,6,6,6],[7,7,7,7]],"dealer":0}|{"fault":3}
{"do":"par","table":[[6,6,6,6],[6,6,6,6],[6,6,6,6],[6,6,6,6],[7,7,7,7]],"dealer":0,"side":0,"vulnerable":0}|{"fault":3}
{"do":"par","table":[[6,6,6,6],[6,6,6,6],[6,6,6,6],[6,6,6,6],[7,7,7,7]],"dealer":0,"vulnerable":0,"trump":4}|{"fault":3}
{"do":"par","table":[[6,6,6,6],[6,6,6,6],[6,6,6,6],[6,6,6,6],[7,7,7,7]],"dealer":0,"vulnerable":0,"played":[]}|{"fault":3}
{"do":"par","table":[[6,6,6,6],[6,6,6,6],[6,6,6,6],[6,6,6,6],[7,7,7,7]],"dealer":0,"vulnerable":0,"deal":"N:A... K... Q... J..."}|{"fault":3}
{"do":"par","table":[[6,6,6,6],[6,6,6,6],[6,6,6,6],[6,6,6,6],[7,7,7,7]],"dealer":4,"dealer":0,"vulnerable":0}|{"contracts":[{"declarers":[0],"level":1,"tricks":7,"trump":4}],"score":90}
{"do":"par","table":[[6,6,6,6],[6,6,6,6],[6,6,6,6],[6,6,6,6],[7,7,7,7]],"dealer":0,"vulnerable":0,"dealer":4}|{"fault":20}
{"do":"par","table":[[6,6,6,6],[6,6,6,6],[6,6,6,6],[6,6,6,6],[7,7,7,7]],"dealer":0,"vulnerable":0,"x":null}|{"fault":3}"#;

/// The same with waits, targets and jobs, and with numbers of many digits.
const WAITS: &[u8] =
    br#"{"do":"solve","deal":"N:A... K... Q... J...","trump":4,"first":0,"solutions":3,"wait":9}|{"cards":[{"equals":0,"rank":14,"score":1,"suit":0}]}
{"do":"solve","deal":"N:A... K... Q... J...","trump":4,"first":0,"solutions":3,"wait":10}|{"cards":[{"equals":0,"rank":14,"score":1,"suit":0}]}
{"do":"solve","deal":"N:A... K... Q... J...","trump":4,"first":0,"solutions":3,"wait":99}|{"cards":[{"equals":0,"rank":14,"score":1,"suit":0}]}
{"do":"solve","deal":"N:A... K... Q... J...","trump":4,"first":0,"solutions":3,"wait":100}|{"cards":[{"equals":0,"rank":14,"score":1,"suit":0}]}
{"do":"solve","deal":"N:A... K... Q... J...","trump":4,"first":0,"solutions":3,"wait":60000}|{"cards":[{"equals":0,"rank":14,"score":1,"suit":0}]}
{"do":"solve","deal":"N:A... K... Q... J...","trump":4,"first":0,"solutions":3,"wait":60001}|{"cards":[{"equals":0,"rank":14,"score":1,"suit":0}]}
{"do":"solve","deal":"N:A... K... Q... J...","trump":4,"first":0,"solutions":3,"wait":9999999999999999999}|{"cards":[{"equals":0,"rank":14,"score":1,"suit":0}]}
{"do":"solve","deal":"N:A... K... Q... J...","trump":4,"first":0,"solutions":3,"wait":10000000000000000000}|{"cards":[{"equals":0,"rank":14,"score":1,"suit":0}]}
{"do":"solve","deal":"N:A... K... Q... J...","trump":4,"first":0,"solutions":3,"wait":18446744073709551615}|{"cards":[{"equals":0,"rank":14,"score":1,"suit":0}]}
{"do":"solve","deal":"N:A... K... Q... J...","trump":4,"first":0,"solutions":3,"wait":18446744073709551616}|{"fault":3}
{"do":"solve","deal":"N:A... K... Q... J...","trump":4,"first":0,"solutions":3,"wait":100000000000000000000}|{"fault":3}
{"do":"solve","deal":"N:A... K... Q... J...","trump":4,"first":0,"solutions":3,"wait":00}|{"fault":1}
{"do":"solve","deal":"N:A... K... Q... J...","trump":4,"first":0,"solutions":3,"wait":010}|{"fault":1}
{"do":"solve","deal":"N:A... K... Q... J...","trump":4,"first":0,"solutions":3,"wait":0100}|{"fault":1}
{"do":"solve","deal":"N:A... K... Q... J...","trump":4,"first":0,"solutions":3,"wait":100.0}|{"fault":3}
{"do":"solve","deal":"N:A... K... Q... J...","trump":4,"first":0,"solutions":3,"wait":1000e1}|{"fault":3}
{"do":"solve","deal":"N:A... K... Q... J...","trump":4,"first":0,"solutions":3,"wait":-100}|{"fault":3}
{"do":"solve","deal":"N:A... K... Q... J...","trump":4,"first":0,"solutions":3,"wait":"100"}|{"fault":3}
{"do":"solve","deal":"N:A... K... Q... J...","trump":4,"first":0,"solutions":3,"wait":null}|{"fault":3}
{"do":"solve","deal":"N:A... K... Q... J...","trump":4,"first":0,"solutions":3,"wait":}|{"fault":1}
{"do":"solve","deal":"N:A... K... Q... J...","trump":4,"first":0,"solutions":3,"wait":100x}|{"fault":1}
{"do":"solve","deal":"N:A... K... Q... J...","trump":4,"first":0,"solutions":3,"wait":100,"wait":5}|{"cards":[{"equals":0,"rank":14,"score":1,"suit":0}]}
{"do":"solve","deal":"N:A... K... Q... J...","trump":4,"first":0,"solutions":3,"wait":5,"wait":"5"}|{"fault":3}
{"do":"solve","deal":"N:A... K... Q... J...","trump":4,"first":0,"solutions":3,"job":1}|{"fault":3}
{"do":"solve","deal":"N:A... K... Q... J...","trump":4,"first":0,"solutions":3,"id":1}|{"fault":3}
{"do":"solve","deal":"N:A... K... Q... J...","trump":4,"first":0,"solutions":1,"target":0}|{"cards":[{"equals":0,"rank":14,"score":0,"suit":0}]}
{"do":"solve","deal":"N:A... K... Q... J...","trump":4,"first":0,"solutions":2,"target":13}|{"cards":[]}
{"do":"solve","deal":"N:A... K... Q... J...","trump":4,"first":0,"solutions":2,"target":1,"wait":100}|{"cards":[{"equals":0,"rank":14,"score":1,"suit":0}]}
{"do":"solve","deal":"N:A... K... Q... J...","trump":4,"first":0,"solutions":3,"target":1}|{"fault":12}
{"do":"solve","deal":"N:A... K... Q... J...","trump":4,"first":0,"solutions":0,"target":1}|{"fault":12}
{"do":"solve","deal":"N:A... K... Q... J...","trump":4,"first":0,"solutions":2,"target":14}|{"fault":27}
{"do":"solve","deal":"N:A... K... Q... J...","trump":4,"first":0,"solutions":2,"target":100}|{"fault":27}
{"do":"solve","deal":"N:A... K... Q... J...","trump":4,"first":0,"solutions":2,"target":-1}|{"fault":3}
{"do":"solve","deal":"N:A... K... Q... J...","trump":4,"first":0,"solutions":2,"target":"1"}|{"fault":3}
{"do":"solve","deal":"N:A... K... Q... J...","trump":4,"first":0,"solutions":2,"target":1,"dealer":0}|{"fault":3}
{"do":"solve","deal":"N:A... K... Q... J...","trump":4,"first":0,"solutions":2,"target":1,"job":1}|{"fault":3}
{"do":"solve","deal":"N:A... K... Q... J...","trump":4,"first":0,"solutions":2,"target":14,"target":1}|{"cards":[{"equals":0,"rank":14,"score":1,"suit":0}]}
{"do":"solve","deal":"N:... ... Q... J...","trump":4,"first":0,"played":[[0,14],[0,13]],"solutions":1,"target":1,"wait":60000}|{"cards":[{"equals":0,"rank":12,"score":1,"suit":0}]}
{"wait":100,"target":1,"solutions":1,"played":[[0,2],[0,3]],"first":0,"trump":4,"deal":"N:... ... Q... J...","do":"solve"}|{"cards":[{"equals":0,"rank":12,"score":1,"suit":0}]}
{"do":"fetch","job":1}|{"fault":3}
{"do":"fetch","job":1,"wait":100}|{"fault":3}
{"do":"par","table":[[6,6,6,6],[6,6,6,6],[6,6,6,6],[6,6,6,6],[7,7,7,7]],"dealer":0,"vulnerable":0,"wait":1}|{"fault":3}
{"do":"par","table":[[6,6,6,6],[6,6,6,6],[6,6,6,6],[6,6,6,6],[7,7,7,7]],"dealer":0,"vulnerable":0,"job":1}|{"fault":3}
{"do":"par","table":[[6,6,6,6],[6,6,6,6],[6,6,6,6],[6,6,6,6],[7,7,7,1000000000000000000]],"dealer":0,"vulnerable":0}|{"fault":22}"#;

/// The same with spaces and escapes.
const SPACES: &[u8] =
    br#"{ "do":"solve","deal":"N:... K... Q... J...","trump":4,"played":[[0,14]],"first":0,"solutions":3}|{"cards":[{"equals":0,"rank":13,"score":0,"suit":0}]}
{  "do":"solve","deal":"N:... K... Q... J...","trump":4,"played":[[0,14]],"first":0,"solutions":3}|{"cards":[{"equals":0,"rank":13,"score":0,"suit":0}]}
{"do": "solve","deal":"N:... K... Q... J...","trump":4,"played":[[0,14]],"first":0,"solutions":3}|{"cards":[{"equals":0,"rank":13,"score":0,"suit":0}]}
{"do":  "solve","deal":"N:... K... Q... J...","trump":4,"played":[[0,14]],"first":0,"solutions":3}|{"cards":[{"equals":0,"rank":13,"score":0,"suit":0}]}
{"do":"solve", "deal":"N:... K... Q... J...","trump":4,"played":[[0,14]],"first":0,"solutions":3}|{"cards":[{"equals":0,"rank":13,"score":0,"suit":0}]}
{"do":"solve",  "deal":"N:... K... Q... J...","trump":4,"played":[[0,14]],"first":0,"solutions":3}|{"cards":[{"equals":0,"rank":13,"score":0,"suit":0}]}
{"do":"solve","deal":"N:... K... Q... J...","trump":4,"played":[ [0,14]],"first":0,"solutions":3}|{"cards":[{"equals":0,"rank":13,"score":0,"suit":0}]}
{"do":"solve","deal":"N:... K... Q... J...","trump":4,"played":[  [0,14]],"first":0,"solutions":3}|{"cards":[{"equals":0,"rank":13,"score":0,"suit":0}]}
{"do":"solve","deal":"N:... K... Q... J...","trump":4,"played":[[ 0,14]],"first":0,"solutions":3}|{"cards":[{"equals":0,"rank":13,"score":0,"suit":0}]}
{"do":"solve","deal":"N:... K... Q... J...","trump":4,"played":[[  0,14]],"first":0,"solutions":3}|{"cards":[{"equals":0,"rank":13,"score":0,"suit":0}]}
{"do":"solve","deal":"N:... K... Q... J...","trump":4,"played":[[0, 14]],"first":0,"solutions":3}|{"cards":[{"equals":0,"rank":13,"score":0,"suit":0}]}
{"do":"solve","deal":"N:... K... Q... J...","trump":4,"played":[[0,  14]],"first":0,"solutions":3}|{"cards":[{"equals":0,"rank":13,"score":0,"suit":0}]}
{"do" :"solve","deal":"N:... K... Q... J...","trump":4,"played":[[0,14]],"first":0,"solutions":3}|{"cards":[{"equals":0,"rank":13,"score":0,"suit":0}]}
{"do":"solve" ,"deal":"N:... K... Q... J...","trump":4,"played":[[0,14]],"first":0,"solutions":3}|{"cards":[{"equals":0,"rank":13,"score":0,"suit":0}]}
{"do":"solve","deal":"N:... K... Q... J...","trump":4,"played":[[0 ,14]],"first":0,"solutions":3}|{"cards":[{"equals":0,"rank":13,"score":0,"suit":0}]}
{"do":"solve","deal":"N:... K... Q... J...","trump":4,"played":[[0,14 ]],"first":0,"solutions":3}|{"cards":[{"equals":0,"rank":13,"score":0,"suit":0}]}
{"do":"solve","deal":"N:... K... Q... J...","trump":4,"played":[[0,14] ],"first":0,"solutions":3}|{"cards":[{"equals":0,"rank":13,"score":0,"suit":0}]}
{"do":"solve","deal":"N:... K... Q... J...","trump":4,"played":[[0,14]] ,"first":0,"solutions":3}|{"cards":[{"equals":0,"rank":13,"score":0,"suit":0}]}
{"do":"solve","deal":"N:A... K... Q... J...","trump":4 ,"first":0,"solutions":3}|{"cards":[{"equals":0,"rank":14,"score":1,"suit":0}]}
{"do":"solve","deal":"N:A... K... Q... J...","trump":4,"first":0,"played":[ ],"solutions":3}|{"cards":[{"equals":0,"rank":14,"score":1,"suit":0}]}
{"do":"solve","deal":"N:A... K... Q... J...","trump":4,"first":0,"played":[  ],"solutions":3}|{"cards":[{"equals":0,"rank":14,"score":1,"suit":0}]}
{"do":"par","table":[[6,6,6,6],[6,6,6,6],[6,6,6,6],[6,6,6,6],[ 7,7,7,7]],"dealer":0,"vulnerable":0}|{"contracts":[{"declarers":[0],"level":1,"tricks":7,"trump":4}],"score":90}
{"do":"par","table":[[6,6,6,6],[6,6,6,6],[6,6,6,6],[6,6,6,6],[  7,7,7,7]],"dealer":0,"vulnerable":0}|{"contracts":[{"declarers":[0],"level":1,"tricks":7,"trump":4}],"score":90}
{"do":"par","table":[[6,6,6,6],[6,6,6,6],[6,6,6,6],[6,6,6,6],[7, 7, 7, 7]],"dealer":0,"vulnerable":0}|{"contracts":[{"declarers":[0],"level":1,"tricks":7,"trump":4}],"score":90}
{"do":"par","table":[[6,6,6,6],[6,6,6,6],[6,6,6,6],[6,6,6,6],[7,  7,7,7]],"dealer":0,"vulnerable":0}|{"contracts":[{"declarers":[0],"level":1,"tricks":7,"trump":4}],"score":90}
{"do":"par","table":[[6,6,6,6],[6,6,6,6],[6,6,6,6],[6,6,6,6],[7,7,7,7 ]],"dealer":0,"vulnerable":0}|{"contracts":[{"declarers":[0],"level":1,"tricks":7,"trump":4}],"score":90}
{"do":"par","table":[[6,6,6,6],[6,6,6,6],[6,6,6,6],[6,6,6,6], [7,7,7,7]],"dealer":0,"vulnerable":0}|{"contracts":[{"declarers":[0],"level":1,"tricks":7,"trump":4}],"score":90}
{"do":"par","table":[[6,6,6,6],[6,6,6,6],[6,6,6,6],[6,6,6,6],  [7,7,7,7]],"dealer":0,"vulnerable":0}|{"contracts":[{"declarers":[0],"level":1,"tricks":7,"trump":4}],"score":90}
 {"do":"solve","deal":"N:A... K... Q... J...","trump":4,"first":0,"solutions":3}|{"cards":[{"equals":0,"rank":14,"score":1,"suit":0}]}
{"do":"s\u006flve","deal":"N:A... K... Q... J...","trump":4,"first":0,"solutions":3}|{"cards":[{"equals":0,"rank":14,"score":1,"suit":0}]}
{"d\u006f":"solve","deal":"N:A... K... Q... J...","trump":4,"first":0,"solutions":3}|{"cards":[{"equals":0,"rank":14,"score":1,"suit":0}]}
{"do":"solve","deal":"N\u003aA... K... Q... J...","trump":4,"first":0,"solutions":3}|{"cards":[{"equals":0,"rank":14,"score":1,"suit":0}]}
{"do":"solve","deal":"N:A...\tK... Q... J...","trump":4,"first":0,"solutions":3}|{"cards":[{"equals":0,"rank":14,"score":1,"suit":0}]}
{"do":"solve","deal":"N:A...\nK... Q... J...","trump":4,"first":0,"solutions":3}|{"fault":4}
{"do":"solve","deal":"[Deal \"N:A... K... Q... J...\"]","trump":4,"first":0,"solutions":3}|{"cards":[{"equals":0,"rank":14,"score":1,"suit":0}]}
{"do":"solve","deal":"N:A... K... Q... J...\","trump":4,"first":0,"solutions":3}|{"fault":1}
{}|{"fault":3}
[]}|{"fault":1}
{"do":"solve","deal":"N:A... K... Q... J...","trump":4,"first":0,"solutions":3}}|{"fault":1}"#;

/// The same with a tab and with bytes that a text may not have.
const BYTES: &[u8] =
    b"{\"do\":\"solve\",\t\"deal\":\"N:A... K... Q... J...\",\"trump\":4,\"first\":0,\"solutions\":3}|{\"cards\":[{\"equals\":0,\"rank\":14,\"score\":1,\"suit\":0}]}\n\
     {\"do\":\"solve\",\"deal\":\"N:A...\tK... Q... J...\",\"trump\":4,\"first\":0,\"solutions\":3}|{\"fault\":1}\n\
     {\"do\":\"solve\",\"deal\":\"N:A... K... Q... J...\x7f\",\"trump\":4,\"first\":0,\"solutions\":3}|{\"fault\":4}\n\
     {\"do\":\"solve\",\"deal\":\"\x7f\",\"trump\":4,\"first\":0,\"solutions\":3}|{\"fault\":4}\n\
     {\"do\":\"solve\",\"deal\":\"\xc2\x80\",\"trump\":4,\"first\":0,\"solutions\":3}|{\"fault\":4}\n\
     {\"do\":\"solve\",\"deal\":\"\x80\",\"trump\":4,\"first\":0,\"solutions\":3}|{\"fault\":1}\n\
     {\"do\":\"solve\",\"deal\":\"N:A... K...\x7fQ... J...\",\"trump\":4,\"first\":0,\"solutions\":3}|{\"fault\":4}\n\
     {\"do\":\"solve\",\"deal\":\"N:A... K...\xc2\x80Q... J...\",\"trump\":4,\"first\":0,\"solutions\":3}|{\"fault\":4}\n\
     {\"do\":\"solve\",\"deal\":\"N:A... K...\x80Q... J...\",\"trump\":4,\"first\":0,\"solutions\":3}|{\"fault\":1}\n\
     {\"do\":\"solve\",\"deal\":\"N:A... K... Q... J...\",\"deal\":\"\xc3\x84\",\"trump\":4,\"first\":0,\"solutions\":3}|{\"fault\":4}\n\
     {\"do\":\"solve\",\"deal\":\"\xc3\x84\",\"deal\":\"N:A... K... Q... J...\",\"trump\":4,\"first\":0,\"solutions\":3}|{\"cards\":[{\"equals\":0,\"rank\":14,\"score\":1,\"suit\":0}]}\n\
     {\"do\":\"solve\",\"deal\":\"N:A... K... Q... J...\x1f\",\"trump\":4,\"first\":0,\"solutions\":3}|{\"fault\":1}\n\
     {\"do\":\"solve\",\"deal\":\"N:A... K... Q... J...\xc3\x84\",\"trump\":4,\"first\":0,\"solutions\":3}|{\"fault\":4}\n\
     {\"do\":\"solve\",\"deal\":\"N:A... K... Q... J...\xff\",\"trump\":4,\"first\":0,\"solutions\":3}|{\"fault\":1}\n\
     {\"do\":\"solve\",\"deal\":\"N:A... K... Q... J...\xed\xa0\x80\",\"trump\":4,\"first\":0,\"solutions\":3}|{\"fault\":1}";

// Has a line this reply?
fn has_reply(alloc: Global, line: &[u8], reply: &[u8]) -> bool {
    reply_to_line(alloc, line, &DoubleDummy, &mut NoTable, None)
        .as_str()
        .as_bytes()
        == reply
}

// The first row whose line has another reply in one of the two forms, or nothing.
fn first_told_apart(
    alloc: Global,
    table: &'static [u8],
) -> Result<Option<&'static [u8]>, AllocError> {
    for row in table.split(|byte| *byte == b'\n') {
        let (line, reply) = (before_bar(row), after_bar(row));
        let spaced = spaced(alloc, line)?;
        if !has_reply(alloc, line, reply) || !has_reply(alloc, &spaced, reply) {
            return Ok(Some(row));
        }
    }
    Ok(None)
}

#[test]
fn a_line_has_the_same_reply_with_a_space_before_its_brace(rt: HostRuntime) -> Result<(), Fail> {
    for table in [CARDS, PAR, WAITS, SPACES, BYTES] {
        assert_eq!(rt; first_told_apart(rt.alloc(), table)?, None);
    }
    for table in [worked::REPLIES, par::REPLIES, par::FAULTS] {
        assert_eq!(rt; first_told_apart(rt.alloc(), table)?, None);
    }
    Ok(())
}

// A line of a usual form of this many bytes, where they are enough: spaces follow the cards of its deal.
fn long_line(alloc: Global, len: usize) -> Result<Vec<u8>, AllocError> {
    let begin = br#"{"do":"solve","trump":4,"first":0,"solutions":3,"deal":"N:A... K... Q... J..."#;
    let mut line = Vec::new(alloc);
    line.extend_from_slice(begin)?;
    for _ in begin.len()..len.saturating_sub(2) {
        line.push(b' ')?;
    }
    line.extend_from_slice(b"\"}")?;
    Ok(line)
}

#[test]
fn the_longest_line_of_a_usual_form_has_its_reply(rt: HostRuntime) -> Result<(), Fail> {
    let right = br#"{"cards":[{"equals":0,"rank":14,"score":1,"suit":0}]}"#;
    let too_long = br#"{"fault":2}"#;
    let shorter = long_line(rt.alloc(), 4_095)?;
    let longest = long_line(rt.alloc(), 4_096)?;
    let longer = long_line(rt.alloc(), 4_097)?;
    assert_eq!(rt;
        (shorter.len(), longest.len(), longer.len()),
        (4_095, 4_096, 4_097)
    );
    assert!(rt; has_reply(rt.alloc(), &shorter, right));
    assert!(rt; has_reply(rt.alloc(), &spaced(rt.alloc(), &shorter)?, right));
    assert!(rt; has_reply(rt.alloc(), &longest, right));
    assert!(rt; has_reply(rt.alloc(), &spaced(rt.alloc(), &longest)?, too_long));
    assert!(rt; has_reply(rt.alloc(), &longer, too_long));
    Ok(())
}
