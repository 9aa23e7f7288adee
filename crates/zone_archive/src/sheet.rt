// The export of class_sheet.
ghost use Rattle.std.specs.Prelude.{◌≡◌, length};
ghost use Rattle.class_sheet.specs.ClassSheet.{outcome_of, class_sheet, ReadsBack};
ghost use Rattle.answers.specs.Sheets.{zone_class_sheet};

#[unsafe(no_mangle)]
pub extern "C" fn zone_class_sheet(class_map: &[i64], triplets: &[i64], sheet: &mut [i64]) -> i64
    ensures outcome { record { answer = result; sheet = sheet.new } ≡ zone_class_sheet class_map.now triplets.now (length sheet.old) }
    ensures reads_back { ReadsBack class_map.now triplets.now (outcome_of (class_sheet class_map.now triplets.now (length sheet.old)).answer sheet.new) }
{
    zone_c::zone_class_sheet(class_map, triplets, sheet)
}
