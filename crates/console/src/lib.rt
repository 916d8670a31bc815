// What the three programs share: a file's bytes, and the line of a refusal.
#![tactic(auto)]

ghost use Rattle.std.specs.Prelude.{[], ◌∷◌, ◌≡◌, length};
ghost use Rattle.definitions.specs.Limits.{document01};
ghost use Rattle.definitions.specs.Lists.{bytes};
ghost use Rattle.definitions.specs.Text.{line_text};
ghost use Rattle.io.specs.Counts.{IsPrefixLen};
ghost use Rattle.text.specs.Meaning.{written};

use std::fs::File;
use std::io::Read;
use std::rt::Files;

// What the file holds, from the start of buf on, and how many bytes; 0 if it cannot be opened. Where a read fails, the text ends there.
// Kept: a path of bytes, and 0 for a file that cannot be opened: the public signature, and the programs take such a file for the empty text.
pub fn load(files: &impl Files, path: &[u8], buf: &mut [u8]) -> usize
    ensures { IsPrefixLen result buf.new }
{
    let Ok(name) = str::from_utf8(path) else {
        return 0;
    };
    let Ok(mut file) = File::open(files, name) else {
        return 0;
    };
    let mut done = 0;
    // Kept: a `for` is no plainer: each turn goes on by as many bytes as were read, and a read that fails or gives none ends it.
    while done < buf.len() {
        match file.read(&mut buf[done..]) {
            Ok(n) if n > 0 => done += n,
            _ => break,
        }
    }
    done
}

// `N,` and the number of a refusal, a line at the front of `out`, if it fits. The answer is its length in either case.
pub fn write_refusal(out: &mut [u8], x: u64) -> usize
    ensures value { result ≡ length (line_text document01 (bytes "N,") (x ∷ [])) }
    ensures holds { out.new ≡ written out.old 0 (line_text document01 (bytes "N,") (x ∷ [])) }
{
    printing::line(out, b"N,", &[x])
}

// `N,12,` and the task, the same way.
// Kept: a public function beside write_refusal, whose contract may not change; must-fail/doubled_as_thirteen.edit is its own.
pub fn write_doubled(out: &mut [u8], task: u64) -> usize
    ensures value { result ≡ length (line_text document01 (bytes "N,") (12 ∷ task ∷ [])) }
    ensures holds { out.new ≡ written out.old 0 (line_text document01 (bytes "N,") (12 ∷ task ∷ [])) }
{
    printing::line(out, b"N,", &[12, task])
}
