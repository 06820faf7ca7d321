// The words of a program.
ghost use Rattle.std.specs.Prelude.{◌≡◌, drop};

/// The words: the arguments but the first, which is the program's name.
pub fn words_of(mut args: Vec<String>) -> Vec<String>
    ensures { result.items ≡ drop 1 args.items }
{
    if !args.is_empty() {
        args.remove(0);
    }
    args
}
