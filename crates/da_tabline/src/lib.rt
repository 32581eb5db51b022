//! Lines of fields: the cut of a stream into lines and of a line into fields, the escapes of a field, and the parts of a
//! field: numbers in decimal, bytes in hexadecimal digits and in base64, what stands before and after a byte, and what
//! stands after a given front. It also has the limits of lines.
#![tactic(auto)]

mod base64_text;
mod cutter;
mod escapes;
mod hexadecimal;
mod laws;
mod limits;
mod numbers;
mod parts;
mod pieces;
mod spelling;

pub use base64_text::{from_base64, push_base64, to_base64};
pub use cutter::{LineFault, Lines};
pub use escapes::{escape, unescape, unescaped_fields, what_is_escaped_is_read};
pub use hexadecimal::hex_digits;
pub use laws::{
    a_cutter_goes_on, a_text_has_one_cut, any_cuts_give_the_same_lines, the_cut_is_of_whole_lines,
};
pub use limits::{LONGEST_INPUT, LONGEST_LINE, LONGEST_SCRIPT_LINE};
pub use numbers::{decimal_number, decimal_u32, number_is_decimal, printed_number_is_read};
pub use parts::{FourPieces, four_pieces, key_and_value, split_at_byte, strip_front};
pub use pieces::fields;
pub use spelling::{a_line_goes_on, a_written_line_is_read, push_field};
