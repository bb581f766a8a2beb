// MODEL 17 and 18: the lines of a sheet, how one is read, how a block call's bytes are made, and how a line of output is printed.
#![tactic(auto)]

pub mod fields; // the fields of a line
pub mod call; // a sheet line as one of six calls
pub mod block; // a block call as bytes of a task
pub mod device; // the names lines, and the line of rows and kinds
pub mod print; // lines of output

// MODEL 2.10: the most bytes of a line, without its newline.
pub const MAX_LINE: usize = 80;

// MODEL 17.7: the greatest task number, number of rows and column that a field may have.
pub const MAX_TASK_FIELD: u32 = 65535;

pub const MAX_ROWS_FIELD: u32 = 65535;

pub const MAX_COLUMN_FIELD: u32 = 255;

// MODEL 17.7: the least and the greatest bottom or top that a field may have.
pub const MIN_HEIGHT_FIELD: i32 = -32768;

pub const MAX_HEIGHT_FIELD: i32 = 32767;

// A field is read into a type that has just these limits (`call::Fields`, `device::device_line`). `as`: in a constant std has no other form.
const _: () = prove!(MAX_TASK_FIELD == u16::MAX as u32);

const _: () = prove!(MAX_ROWS_FIELD == u16::MAX as u32);

const _: () = prove!(MAX_COLUMN_FIELD == u8::MAX as u32);

const _: () = prove!(MIN_HEIGHT_FIELD == i16::MIN as i32);

const _: () = prove!(MAX_HEIGHT_FIELD == i16::MAX as i32);

// The bytes that one line of output needs at most.
pub const LINE_ROOM: usize = 80;
