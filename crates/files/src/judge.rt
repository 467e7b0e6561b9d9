// Refusals 20 to 26, and 29: what the file alone decides.
ghost use Rattle.std.specs.Prelude.{◌≡◌, Err, MatchResult};
ghost use Rattle.files.specs.Reading.{judged};

use crate::cells::Judged;
use crate::numbers;
use refusals::Refusal;
use sheet::Sheet;

// The file with its d and T, or the refusal that is first in their order.
#[tactic(auto, unfolding(crate::specs::Reading::judged, crate::specs::FileCases::front_cases, refusals::specs::Cases::decided))]
pub fn judge(file: &[u8]) -> Result<Judged<'_>, Refusal>
    ensures { MatchResult result (λ accepted. accepted.file ≡ file.entry) (λ refusal. judged file.now ≡ Err refusal) }
{
    if file.len() < 8 {
        return Err(Refusal::ShortFile);
    }
    if numbers::big(file, 0, 3) != 0x505654 {
        return Err(Refusal::WrongMark);
    }
    if numbers::big(file, 3, 2) != 1 {
        return Err(Refusal::WrongVersion);
    }
    let d = numbers::big(file, 5, 1) as usize;
    if d == 0 || Sheet::VALUES < d {
        return Err(Refusal::BadValues);
    }
    let t = numbers::big(file, 6, 2) as usize;
    if Sheet::ROWS < t {
        return Err(Refusal::ManyRows);
    }
    if file.len() < 8 + 8 * t {
        return Err(Refusal::CutShort);
    }
    if 8 + 8 * t < file.len() {
        return Err(Refusal::LongFile);
    }
    match numbers::over(file, d, t) {
        Some(i) => Err(Refusal::RowOver(i)),
        None => Ok(Judged { file, d, rows: t }),
    }
}
