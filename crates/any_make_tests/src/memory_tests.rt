//! How often memory is asked for: a test named `takes_N_..` asks N times. `bench/refused_memory.py` refuses each request in turn,
//! and each of these N runs has to end by want of memory, and the next one as usual. So no text is made twice, and no request is
//! tried again or made for nothing.

use crate::tests::{Row, is_made, rows};
use any_make::MakeCost;
use std::alloc::Global;
use std::process::Abort;

// The first row whose text begins so.
fn first_row(front: &str) -> Option<&'static Row> {
    for row in rows() {
        if row.text.starts_with(front) {
            return Some(row);
        }
    }
    None
}

// Makes the text of this row.
fn is_first_made(rt: &impl Abort, alloc: Global, front: &str) {
    match first_row(front) {
        Some(row) => is_made(rt, alloc, row),
        None => panic!(rt; "no row begins with {front}"),
    }
}

fn has_table(cost: MakeCost) -> bool {
    matches!(
        cost,
        MakeCost::Scrypt(_) | MakeCost::Yescrypt(_) | MakeCost::Argon2id(_)
    )
}

#[test]
fn takes_0_requests_without_a_table(rt: HostRuntime) {
    for row in rows() {
        if !has_table(row.cost) {
            is_made(&rt, rt.alloc(), row);
        }
    }
}

#[test]
fn takes_1_request_for_scrypt(rt: HostRuntime) {
    is_first_made(&rt, rt.alloc(), "$scrypt$ln=1,r=1,p=101$");
}

#[test]
fn takes_1_request_for_argon2id(rt: HostRuntime) {
    is_first_made(&rt, rt.alloc(), "$argon2id$v=19$m=256");
}

#[test]
fn takes_2_requests_for_yescrypt(rt: HostRuntime) {
    is_first_made(&rt, rt.alloc(), "$y$");
}
