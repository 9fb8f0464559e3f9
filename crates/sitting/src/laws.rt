ghost use Rattle.sitting.specs.Sittings.{SittingLaw};

// Every sitting, over every finished transcript of which its granted views are stretches.
pub fn sittings() -> u8
    ensures { SittingLaw }
{
    0
}
