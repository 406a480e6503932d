ghost use Rattle.std.specs.Prelude.{◌≡◌, false, IfOk};

use crate::calls::{ANSWER, CALL, has_written};
use crate::parts::bytes_of;
use crate::running::{store_with, words_of};
use memory_network::MemConns;
use memory_objects::MemSink;
use rpc_record::{Conns, run_stream};
use std::alloc::{AllocError, Global};
use std::process::Abort;

/// The lengths up to which a call is cut, each with what is written of the reply to it then. They are those over UDP.
const CUTS: &[(usize, &[&str])] = &[
    (23, &[]),
    (
        55,
        &["80000014 00000001 00000001 00000001 00000001 00000001"],
    ),
    (
        63,
        &["80000014 00000001 00000001 00000001 00000001 00000003"],
    ),
    (
        79,
        &["80000018 00000001 00000001 00000000 00000000 00000000 00000004"],
    ),
    (80, ANSWER),
];

/// What is written of the reply to the call where it is cut to a length.
fn answer_at(len: usize) -> &'static [&'static str] {
    for (most, answer) in CUTS {
        if len <= *most {
            return *answer;
        }
    }
    &[]
}

/// Puts what words say behind bytes.
fn put_words(bytes: &mut Vec<u8>, alloc: Global, words: &[&'static str]) -> Result<(), AllocError> {
    for word in words {
        bytes.extend_from_slice(&bytes_of(alloc, *word)?)?;
    }
    Ok(())
}

/// Puts the first bytes of a call behind bytes, as a record of one fragment.
fn put_cut(bytes: &mut Vec<u8>, call: &[u8], len: u32) -> Result<(), AllocError> {
    let head = 0x8000_0000 | len;
    bytes.extend_from_slice(&head.to_be_bytes())?;
    bytes.extend_from_slice(call.get(..len as usize).unwrap_or(&[]))?;
    Ok(())
}

/// The call, cut to each of its lengths, one record behind another; and what is written then.
fn all_cuts(alloc: Global) -> Result<(Vec<u8>, Vec<u8>), AllocError> {
    let mut whole = Vec::new(alloc);
    put_words(&mut whole, alloc, CALL)?;
    let call = whole.get(4..).unwrap_or(&[]);
    let mut stream = Vec::new(alloc);
    let mut answers = Vec::new(alloc);
    for len in 0..81_u32 {
        put_cut(&mut stream, call, len)?;
        put_words(&mut answers, alloc, answer_at(len as usize))?;
    }
    Ok((stream, answers))
}

/// One connection that brings these bytes.
fn one_conn(alloc: Global, bytes: Vec<u8>) -> Result<MemConns, AllocError>
    ensures { IfOk result (λ conns. ⟦<MemConns as Conns>⟧.is_open conns ≡ false) }
{
    let mut list = Vec::new(alloc);
    list.push((1_700_000_000, bytes))?;
    MemConns::new(alloc, list, Vec::new(alloc))
}

/// Whether the call gets its reply at each length to which it is cut.
fn is_answered_at_each(alloc: Global) -> Result<bool, AllocError> {
    let (stream, answers) = all_cuts(alloc)?;
    let mut conns = one_conn(alloc, stream)?;
    let words = words_of(alloc, "0 1 any /home user q")?;
    let mut store = store_with(alloc, &[])?;
    let mut err = MemSink::new(Vec::new(alloc), Vec::new(alloc));
    let status = run_stream(alloc, &words, &mut store, &mut conns, &mut err);
    Ok(status == 0 && has_written(&conns, 0, &answers))
}

fn expect_each_cut(rt: &impl Abort, alloc: Global) {
    assert!(rt; is_answered_at_each(alloc) == Ok(true));
}

#[test]
fn a_call_cut_to_each_length_gets_its_reply_over_a_stream(rt: HostRuntime) {
    expect_each_cut(&rt, rt.alloc());
}
