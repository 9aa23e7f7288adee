// The export of mark_candidates.
ghost use Rattle.std.specs.Prelude.{◌≡◌, pos, length};
ghost use Rattle.common.specs.Array.{rows, matrix_at};
ghost use Rattle.mark_candidates.specs.CertainMarks.{MarksSay};
ghost use Rattle.answers.specs.Marks.{zone_mark_candidates};

#[unsafe(no_mangle)]
pub extern "C" fn zone_mark_candidates(
    d: &[i64],
    q: &[i64],
    ps: &[i64],
    lowest: &[i64],
    highest: &[i64],
    point: i64,
    marks: &mut [i64],
) -> i64
    ensures outcome { record { answer = result; marks = marks.new }
        ≡ zone_mark_candidates d.now q.now ps.now lowest.now highest.now point (length marks.old) }
    ensures marks_say { result ≡ pos 0 → MarksSay d.now (rows (matrix_at q.now 0)) ps.now lowest.now highest.now point marks.new }
{
    zone_c::zone_mark_candidates(d, q, ps, lowest, highest, point, marks)
}
