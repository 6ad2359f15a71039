ghost use Rattle.profile.specs.Keys.{IgnoresTheRest};

/// States, as its contract, that words alike in the seven upper bits of their first eight bytes
/// are the same to DES.
pub fn des_reads_56_bits()
    ensures { IgnoresTheRest }
{}
