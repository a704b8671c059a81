// A line of input.
ghost use Rattle.std.specs.Prelude.{◌≡◌};
ghost use Rattle.console.specs.Lines.{without_end};

// The line without the byte that ends it, if it has one.
pub fn without_end(line: &[u8]) -> &[u8]
    ensures { result.now ≡ without_end line.now }
{
    match line {
        [front @ .., b'\n'] => front,
        _ => line,
    }
}
