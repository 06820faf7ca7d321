// The command lines of a script, one after another.
ghost use Rattle.std.specs.Prelude.{◌≡◌, ◌≤◌, ◌∷◌, ◌==◌, [], MatchOption, length, option_map};
ghost use Rattle.std.specs.List.{slice_split};
ghost use Rattle.fc_runs.specs.Run.{commands_in};
ghost use Rattle.fc_script.specs.Lines.{is_command_line};
ghost use Rattle.fc_shell.specs.Left.{commands_left, lines_left, size_left};

/// The command lines that are left of a script.
#[derive(Clone, Copy)]
pub struct CommandLines<'a> {
    left: Option<&'a [u8]>,
}

impl<'a> CommandLines<'a> {
    /// All those of a script.
    pub fn new(script: &'a [u8]) -> CommandLines<'a>
        ensures { commands_left result ≡ commands_in script.now }
    {
        CommandLines { left: Some(script) }
    }

    /// Takes the first of them.
    pub fn next(&mut self) -> Option<&'a [u8]>
        ensures { MatchOption result (commands_left self.old ≡ []) (λ line. commands_left self.old ≡ line.now ∷ commands_left self.new) }
    {
        while let Some(text) = self.left {
            let (line, left) = cut_line(text);
            self.left = left;
            if is_command_line(line) {
                return Some(line);
            }
        }
        None
    }
}

// The first line of a text, and what stands after its end, if it has one.
fn cut_line(text: &[u8]) -> (&[u8], Option<&[u8]>)
    ensures cut { slice_split (λ c. c == 10) text.now ≡ result.0.now ∷ lines_left (option_map (λ left. left.now) result.1) }
    ensures shorter { size_left (option_map (λ left. left.now) result.1) ≤ length text.now }
{
    match text.iter().position(|c| *c == b'\n') {
        Some(end) => (&text[..end], Some(&text[end + 1..])),
        None => (text, None),
    }
}

// Whether a line has a reply: it isn't empty, and no comment.
fn is_command_line(line: &[u8]) -> bool
    ensures { result ≡ is_command_line line.now }
{
    !line.is_empty() && line[0] != b'#'
}
