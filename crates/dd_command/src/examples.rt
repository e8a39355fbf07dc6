//! Command lines with which the help begins.
//!
//! Functions and no constants: what mentions them is then proved without their letters.

/// Of the program.
pub fn program_examples() -> &'static str {
    "\
Examples:
  ddserve solve < lines.jsonl              answers each line of a file
  ddserve solve --workers 4 < lines.jsonl  the same with four threads
  ddserve pbn < deals.pbn > filled.pbn     adds results and par to a file of PBN
  ddserve serve --listen 127.0.0.1:4100    answers many clients"
}

/// Of `solve`.
pub fn solve_examples() -> &'static str {
    "\
Examples:
  ddserve solve < lines.jsonl > replies.jsonl
  ddserve solve --workers 4 --budget 10000000 < lines.jsonl > replies.jsonl
  echo '{\"do\":\"table\",\"deal\":\"N:A... K... Q... J...\"}' | ddserve solve"
}

/// Of `serve`.
pub fn serve_examples() -> &'static str {
    "\
Examples:
  ddserve serve --listen 127.0.0.1:4100
  ddserve serve --listen 127.0.0.1:4101 --websocket --workers 8"
}

/// Of `pbn`.
pub fn fill_examples() -> &'static str {
    "\
Examples:
  ddserve pbn < deals.pbn > filled.pbn
  ddserve pbn --tags DoubleDummyTricks,OptimumScore < deals.pbn > filled.pbn"
}
