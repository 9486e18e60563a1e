// A whole session, for a C or Rust program on the board. A slice is two arguments in C, where it starts and how many elements it has.
#![tactic(auto)]

ghost use Rattle.std.specs.Prelude.{◌≡◌, length};
ghost use Rattle.session.specs.Output.{output_of, filled_by};

// `session::run`.
#[unsafe(no_mangle)]
pub extern "C" fn panel_run(input: &[u8], out: &mut [u8]) -> usize
    ensures { (result ≡ length (output_of input.now)) × (out.new ≡ filled_by input.now out.old) }
{
    session::run(input, out)
}
