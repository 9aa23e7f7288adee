// The export of a job's listing.
ghost use Rattle.std.specs.Prelude.{◌≡◌, length};
ghost use Rattle.zone_c.specs.Lists.{zone_list};

#[unsafe(no_mangle)]
pub extern "C" fn zone_list(job: &[u8], text: &mut [u8], told: &mut [i64]) -> i64
    ensures { record { answer = result; text = text.new; told = told.new } ≡ zone_list job.now (length text.old) (length told.old) }
{
    zone_c::zone_list(job, text, told)
}
