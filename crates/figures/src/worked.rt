ghost use Rattle.figures.specs.Table.{FiguresHold};

// The definitions that the contracts name give every worked figure.
pub fn figures_hold()
    ensures { FiguresHold }
{}
