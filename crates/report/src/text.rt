// Text at the front of an area. Past the text the old bytes stand.
ghost use Rattle.std.specs.Prelude.{◌≤◌, ◌++◌, length, decimal};
ghost use Rattle.report.specs.Lines.{Puts, number_line};

use itoa::Buffer;

// Writes the text, and returns its length.
pub(crate) fn put_text(area: &mut [u8], text: &[u8]) -> usize
    requires { length text.now ≤ length area.old }
    ensures { Puts text.now area.old area.new result }
{
    let n = text.len();
    area[..n].copy_from_slice(text);
    n
}

// A number in plain decimal, and a text after it.
pub(crate) fn put_number(area: &mut [u8], number: u32, text: &[u8]) -> usize
    requires { length (decimal number ++ text.now) ≤ length area.old }
    ensures { Puts (decimal number ++ text.now) area.old area.new result }
{
    let mut digits = Buffer::new();
    let a = put_text(area, digits.format(number).as_bytes());
    a + put_text(&mut area[a..], text)
}

// Two numbers with a text between them, and the line's end.
pub(crate) fn put_numbers(area: &mut [u8], first: u32, between: &[u8], second: u32) -> usize
    requires { length (number_line first between.now second) ≤ length area.old }
    ensures { Puts (number_line first between.now second) area.old area.new result }
{
    let a = put_number(area, first, between);
    a + put_number(&mut area[a..], second, b"\n")
}
