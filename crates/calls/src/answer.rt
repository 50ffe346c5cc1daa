// What a call answered, on standard output. A write that fails is not told: what is missing then differs from what another program writes.
use vocabulary::refusal::{self, Refusal};

fn put(rt: &impl Print, bytes: &[u8]) {
    let _ = rt.write_all(bytes);
}

// The line of an answer, number by number. Each piece is written by itself, so that on an output that takes no more all goes out that can.
fn put_line(rt: &impl Print, line: u64, numbers: &[u64]) {
    let _ = print!(rt; "{line}");
    for number in numbers {
        put(rt, b"\t");
        let _ = print!(rt; "{number}");
    }
    put(rt, b"\n");
}

// As every call has it: the line of the script, and the refusal's number.
pub(crate) fn answered(rt: &impl Print, line: u64, ruling: Result<(), Refusal>) {
    put_line(rt, line, &[u64::from(refusal::number(ruling))]);
}

// With how many past setpoints or samples were accepted, or how many bytes were printed.
pub(crate) fn counted(rt: &impl Print, line: u64, ruling: Result<(), Refusal>, count: u64) {
    put_line(rt, line, &[u64::from(refusal::number(ruling)), count]);
}

// With how many contracts there are in each direction.
pub(crate) fn counted_both(rt: &impl Print, line: u64, above: u64, below: u64) {
    put_line(rt, line, &[0, above, below]);
}

// The text that was printed at the start of a buffer.
pub(crate) fn showed(rt: &impl Print, printed: Result<usize, Refusal>, out: &[u8]) {
    let n = printed.unwrap_or(0);
    if let Some(text) = out.get(..n) {
        put(rt, text);
    }
}

// The buffer that a printing call was lent, whole.
pub(crate) fn buffer(rt: &impl Print, lent: &[u8]) {
    put(rt, lent);
    put(rt, b"\n");
}

// A printing call's answer and its buffer.
pub(crate) fn showed_whole(
    rt: &impl Print,
    line: u64,
    printed: Result<usize, Refusal>,
    lent: &[u8],
) {
    match printed {
        Ok(n) => counted(rt, line, Ok(()), n as u64),
        Err(refusal) => answered(rt, line, Err(refusal)),
    }
    buffer(rt, lent);
}
