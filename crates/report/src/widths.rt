// The widths of a report's fields, the lengths of its records and of the whole, in bytes: the numbers of
// `secret/specs/Widths.antt`, which the contracts cite.
use control::{ADDRESS_WIDTH, FAULT_WIDTH};
use guard::BREAK_LIMIT;
use isa::{MEMORY_WORDS, REGISTER_COUNT, TEXT_WIDTH};
use trace::TRACE_LIMIT;

pub(crate) const KIND_WIDTH: usize = 1;

// An image's length, a number of breakpoints, a number of words.
pub(crate) const COUNT_WIDTH: usize = 2;

// A budget, a trace record's number, a count of the run.
pub(crate) const NUMBER_WIDTH: usize = 8;

// Where an instruction stands.
pub(crate) const PLACE_WIDTH: usize = 1;

// A register's index.
pub(crate) const INDEX_WIDTH: usize = 1;

// The owners of a value, and a reader's clearance.
pub(crate) const MARK_WIDTH: usize = 1;

pub(crate) const VALUE_WIDTH: usize = 2;

pub(crate) const PHASE_WIDTH: usize = 1;

pub(crate) const STOP_WIDTH: usize = 1;

// Kinds 09, 02 to 08 and 0A, with where a field begins in its record.
pub(crate) const HEAD_LENGTH: usize = CLEARANCE_AT + MARK_WIDTH;

pub(crate) const BUDGET_AT: usize = KIND_WIDTH + COUNT_WIDTH;

pub(crate) const BREAK_COUNT_AT: usize = BUDGET_AT + NUMBER_WIDTH;

pub(crate) const CLEARANCE_AT: usize = BREAK_COUNT_AT + COUNT_WIDTH;

pub(crate) const START_LENGTH: usize = WORD_LENGTH + TEXT_WIDTH;

pub(crate) const BREAK_LENGTH: usize = KIND_WIDTH + PLACE_WIDTH;

pub(crate) const TRACE_LENGTH: usize = KIND_WIDTH
    + NUMBER_WIDTH
    + PLACE_WIDTH
    + PHASE_WIDTH
    + TEXT_WIDTH;

pub(crate) const PLACE_AND_PHASE: usize = PLACE_WIDTH + PHASE_WIDTH;

pub(crate) const REGISTER_LENGTH: usize = KIND_WIDTH + INDEX_WIDTH + MARK_WIDTH + VALUE_WIDTH;

pub(crate) const WORD_LENGTH: usize = KIND_WIDTH + ADDRESS_WIDTH + MARK_WIDTH + VALUE_WIDTH;

pub(crate) const TOUCHED_LENGTH: usize = KIND_WIDTH + ADDRESS_WIDTH;

pub(crate) const END_LENGTH: usize = KIND_WIDTH
    + STOP_WIDTH
    + CONTROL_LENGTH
    + COUNTS_LENGTH
    + FAULT_WIDTH;

pub(crate) const HIDDEN_LENGTH: usize = KIND_WIDTH + COUNT_WIDTH;

pub(crate) const LAST_LENGTH: usize = END_LENGTH + HIDDEN_LENGTH;

// The parts of kind 08.
pub(crate) const CONTROL_AT: usize = KIND_WIDTH + STOP_WIDTH;

pub(crate) const CONTROL_LENGTH: usize = PLACE_WIDTH
    + VALUE_WIDTH
    + ADDRESS_WIDTH
    + MARK_WIDTH
    + VALUE_WIDTH;

pub(crate) const PLACE_AND_VALUE: usize = PLACE_WIDTH + VALUE_WIDTH;

pub(crate) const COUNTS_LENGTH: usize = 4 * NUMBER_WIDTH;

// All of a kind.
pub(crate) const STARTS_LENGTH: usize = START_LENGTH * MEMORY_WORDS;

pub(crate) const REGISTERS_LENGTH: usize = REGISTER_LENGTH * REGISTER_COUNT;

pub(crate) const WORDS_LENGTH: usize = WORD_LENGTH * MEMORY_WORDS;

pub(crate) const CELLS_LENGTH: usize = REGISTERS_LENGTH + WORDS_LENGTH;

// Where kind 03 begins.
pub(crate) const BREAK_RECORDS_AT: usize = HEAD_LENGTH + STARTS_LENGTH;

// No report is longer: 33,934 bytes.
pub const REPORT_LENGTH: usize = BREAK_RECORDS_AT
    + BREAK_LENGTH * BREAK_LIMIT
    + TRACE_LENGTH * TRACE_LIMIT
    + CELLS_LENGTH
    + TOUCHED_LENGTH * MEMORY_WORDS
    + LAST_LENGTH;

// So many bytes of the report program's input decide every answer (`first-decide`), 1,038: the longest that
// is served has one less, and one more shows that an input is longer than its counts say.
pub const INPUT_LENGTH: usize = COUNT_WIDTH
    + VALUE_WIDTH * MEMORY_WORDS
    + MEMORY_WORDS
    + NUMBER_WIDTH
    + COUNT_WIDTH
    + PLACE_WIDTH * BREAK_LIMIT
    + MARK_WIDTH
    + 1;
