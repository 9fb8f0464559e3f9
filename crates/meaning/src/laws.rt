ghost use Rattle.meaning.specs.Laws.{SameDecides, ClauseLawful, ClauseMonotone, ClauseCausal, ClauseNotCausal, ClauseView, ClauseTracked, ClauseHolds, RangeUnsettled};
ghost use Rattle.meaning.specs.Lines.{Line};
ghost use Rattle.meaning.specs.Ranges.{RangeFronts, RangeWalked, RangeMirror};
ghost use Rattle.meaning.specs.Samples.{SamplesHold, TablesHold};
ghost use Rattle.meaning.specs.Turns.{OneTurn, EndsListed, EndsOfRest, EndsOfFront, ReachedMonotone, TableView, TableFiled, EndsGrow, EndsWalk, TableGrows};

// The sample windows, and the turn tables of a short sitting.
pub fn samples() -> u8
    ensures windows { SamplesHold }
    ensures tables { TablesHold }
{
    0
}

// Turns, their ends and the table of them, for every test of sameness.
pub fn turns() -> u8
    ensures one { OneTurn Line }
    ensures listed { EndsListed Line }
    ensures rest { EndsOfRest Line }
    ensures front { EndsOfFront Line }
    ensures reach { ReachedMonotone Line }
    ensures view { TableView Line }
    ensures filed { TableFiled Line }
    ensures grow { EndsGrow Line }
    ensures walk { EndsWalk Line }
    ensures grows { TableGrows Line }
{
    0
}

// Lines by their order.
pub fn ranges() -> u8
    ensures fronts { RangeFronts }
    ensures walked { RangeWalked }
    ensures mirror { RangeMirror }
    ensures unsettled { RangeUnsettled }
{
    0
}

// Windows of every frame.
pub fn windows() -> u8
    ensures same { SameDecides }
    ensures holds { ClauseHolds }
    ensures lawful { ClauseLawful }
    ensures monotone { ClauseMonotone }
    ensures causal { ClauseCausal }
    ensures not_causal { ClauseNotCausal }
    ensures view { ClauseView }
    ensures tracked { ClauseTracked }
{
    0
}
