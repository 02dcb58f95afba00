// A report: the report program's input, and what the tests' own model answers.
use answer::{first, put_refusal};
use replay::word_at;
use report::{REPORT_LENGTH, report_bytes};

// Puts what the report program would write at the start of `out`, and tells how many bytes that are.
fn put_answer(input: &[u8], out: &mut [u8]) -> usize {
    match report_bytes(input, out) {
        Ok(size) => size,
        Err(refusal) => put_refusal(out, refusal.number()),
    }
}

// Whether the answer at the record's end is the port's.
pub(crate) fn passes(record: &[u8]) -> bool {
    let n = word_at(record, 1) as usize;
    let from = 3 + n;
    if record.len() < from {
        return false;
    }
    let mut due = [0u8; REPORT_LENGTH];
    let size = put_answer(&record[3..from], &mut due);
    &record[from..] == first(&due, size)
}
