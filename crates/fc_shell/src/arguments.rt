// What the program makes of its arguments: the words, the run, and the exit status.
ghost use Rattle.std.specs.Prelude.{◌≡◌, ◌⊎◌, [], drop, map, None, Some, string_bytes};
ghost use Rattle.fc_words.specs.CommandLine.{Request, request_of};
ghost use Rattle.fc_shell.specs.declared.ending.End.{End as Ends};
ghost use Rattle.fc_shell.specs.Ends.{status_of};
ghost use Rattle.fc_shell.specs.Program.{HasRunFor, Outside};

use crate::hosted::run_with;
use fc_device::{Disk, Sink, Source};
use fc_host::Host;
use fc_words::read_words;
use std::alloc::Global;

/// The words: the arguments but the first, which is the program's name.
pub fn words_of(mut args: Vec<String>) -> Vec<String>
    ensures { result.items ≡ drop 1 args.items }
{
    if !args.is_empty() {
        args.remove(0);
    }
    args
}

/// The name of the image that the words ask for. It is empty if they are bad, or memory is short.
pub fn image_of(alloc: Global, words: &Vec<String>) -> String
    ensures named { (r : Request) → request_of (map string_bytes words.now.items) ≡ Some r → (string_bytes result ≡ r.image) ⊎ (string_bytes result ≡ []) }
    ensures none { request_of (map string_bytes words.now.items) ≡ None → string_bytes result ≡ [] }
{
    match read_words(alloc, words) {
        Ok(asked) => asked.image,
        Err(_) => String::new(alloc),
    }
}

/// Runs the script as `run_with` does, and answers the exit status.
pub fn program<D: Disk, S: Source, K: Sink, H: Host>(
    alloc: Global,
    words: &Vec<String>,
    disk: &mut D,
    script: &mut S,
    out: &mut K,
    host: &mut H,
) -> u8
    ensures { let old : Outside _ _ _ _ = record { disk = disk.old; source = script.old; sink = out.old; host = host.old } in
        let new : Outside _ _ _ _ = record { disk = disk.new; source = script.new; sink = out.new; host = host.new } in
        (end : Ends) × (result ≡ status_of end) × HasRunFor D.Disk S.Source K.Sink H.Host (map string_bytes words.now.items) old new end }
{
    run_with(alloc, words, disk, script, out, host).status()
}
