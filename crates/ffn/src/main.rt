// The program of document 01: it reads at most 64 KiB of standard input, and writes what its lines print. What is lost is said on standard error.
#![tactic(auto)]

use lines::MOST_OUTPUT;
use streams::INPUT_ROOM;
use tables::{FULL_LIST_WORDS, FULL_TABLE_WORDS};

fn main(rt: HostRuntime) {
    let mut buffer = streams::filled::<u8, INPUT_ROOM>(0);
    let input = streams::input_in(&rt, b"ffn", &mut buffer);
    let mut table = streams::filled::<u64, FULL_TABLE_WORDS>(0);
    let mut list = streams::filled::<u64, FULL_LIST_WORDS>(0);
    let mut out = streams::filled::<u8, MOST_OUTPUT>(0);
    let printed = lines::run(input, &mut table, &mut list, &mut out);
    streams::write_output(&rt, b"ffn", &out[..printed]);
}
