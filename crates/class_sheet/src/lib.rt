// The class sheet: the classes on lines of 46 places, forty to a page, one character code a place.
#![tactic(auto)]

mod field;
mod sheet;
mod weights;

ghost use Rattle.std.specs.Prelude.{◌≡◌, length};
ghost use Rattle.class_sheet.specs.ClassSheet.{outcome_of, class_sheet, ReadsBack};
ghost use Rattle.class_sheet.specs.Code.SheetView.{Laid};

use common::Refusal;

// A refusal may leave anything in the sheet. The weights are counted in its last places, which the lines then cover.
fn lay_out(class_map: &[i64], triplets: &[i64], sheet: &mut [i64]) -> Result<(), Refusal>
    ensures { Laid class_map.now triplets.now (length sheet.old) result sheet.new }
{
    let k = grgrid::own_places(class_map);
    if !common::is_thrice(triplets.len(), k) || !sheet::places_fit(k, sheet.len()) {
        return Err(Refusal::WrongLength);
    }
    let from = sheet.len() - 2 * k;
    weights::weigh(class_map, k, &mut sheet[from..]);
    sheet::put_sheet(class_map, triplets, k, sheet)
}

// The sheet of a finished list: of each class, by rising number, its number, its weight and its triplet.
pub fn class_sheet(class_map: &[i64], triplets: &[i64], sheet: &mut [i64]) -> Result<(), Refusal>
    ensures value { outcome_of result sheet.new ≡ class_sheet class_map.now triplets.now (length sheet.old) }
    ensures reads_back { ReadsBack class_map.now triplets.now (outcome_of result sheet.new) }
{
    let told = lay_out(class_map, triplets, &mut *sheet);
    if told.is_err() {
        sheet.fill(-1);
    }
    told
}
