//! The input of a check: a scene, a line `report`, and the report.

ghost use Rattle.std.specs.Prelude.{◌≡◌, ◌≤◌, length};
ghost use Rattle.history_check.specs.Verdicts.{line_count};
ghost use Rattle.history_check.specs.Inputs.{is_report_line, scene_part, report_part};

use crate::lines::first_line;

// Whether a line is `report`, also with a CR at its end.
fn is_report_line(line: &[u8]) -> bool
    ensures { result ≡ is_report_line line.now }
{
    line == b"report\n".as_slice()
        || line == b"report\r\n".as_slice()
        || line == b"report".as_slice()
        || line == b"report\r".as_slice()
}

/// The bytes in front of the first line `report`, and those behind it. Without such a line all is in front.
#[tactic(auto, using(crate::proofs::Lined::few_lines))]
pub fn cut(input: &[u8]) -> (&[u8], &[u8])
    ensures scene { result.0.now ≡ scene_part input.now }
    ensures report { result.1.now ≡ report_part input.now }
    ensures fits { (length result.0.now ≤ length input.now) × (length result.1.now ≤ length input.now) }
    ensures lines { line_count result.1.now ≤ length input.now }
{
    let mut at = 0;
    while at < input.len() {
        let (line, behind) = first_line(&input[at..]);
        if is_report_line(line) {
            return (&input[..at], behind);
        }
        at += line.len();
    }
    (input, &[])
}
