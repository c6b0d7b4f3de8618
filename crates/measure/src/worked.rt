// Chords of two strokes, worked out by hand.
ghost use Rattle.measure.specs.Worked.{WorkedChords};

// The bare measures answer at the worked chords what was worked out.
pub fn worked_chords_stand() -> u8
    ensures { WorkedChords }
{
    0
}
