//! Laws of pictures.
ghost use Rattle.run_picture.specs.Curves.{EachRoundHasItsPoint, EachValueHasItsCurve};
ghost use Rattle.run_picture.specs.DrawnLinks.{EachLinkIsDrawnOnce, LinesTellLinks};
ghost use Rattle.run_picture.specs.Moving.{EachFrameHasItsColours, EachFrameHasItsTime};
ghost use Rattle.run_picture.specs.Nets.{EachLinkHasItsLine};
ghost use Rattle.run_picture.specs.Placed.{EachCellHasItsPlace, TextTellsCells};
ghost use Rattle.run_picture.specs.Shades.{EachPictureHasAKey, KeysAreOne, SameClassSameValue, SameColourSameValue, StatesKeepTheirColours, ValuesLieBetween};
ghost use Rattle.run_picture.specs.Steps.{EachStepHasItsShare, ScalesAreWide, StepsAreEven, StepsAreOne, StepsGoFromEndToEnd};
ghost use Rattle.run_picture.specs.Ticks.{EachAxisHasTicks, TicksAreFew, TicksAreOne};

/// Each picture has one key, from which its colours and its legend follow: the least nine of the values that are shown,
/// rising, the greatest of them, and whether a cell says that there is none. Each value that is shown, a state or the value
/// of a cell, lies from the least to the greatest.
pub fn each_picture_has_one_key()
    ensures some { EachPictureHasAKey }
    ensures one { KeysAreOne }
    ensures ends { ValuesLieBetween }
{}

/// More than eight values are shown on 16 steps, which rise with the numbers from the least value to the greatest: the first
/// s of them have together s sixteenths of these numbers, rounded up, so that each has a sixteenth, rounded down or up.
/// There are no other such steps. These numbers are nine at least. The least value has the first step, and the greatest the
/// last, or that before it where they are fewer than 16.
pub fn steps_are_even()
    ensures steps { StepsAreEven }
    ensures one { StepsAreOne }
    ensures shares { EachStepHasItsShare }
    ensures wide { ScalesAreWide }
    ensures ends { StepsGoFromEndToEnd }
{}

/// At an axis stand the multiples of a step, rising, from its first number to its last one: of the least step that is 1, 2 or
/// 5 times a power of ten and of which ten reach over the axis. Each axis of numbers of 32 bits has such numbers, no axis has
/// others, and they are eleven at most.
pub fn each_axis_has_its_ticks()
    ensures some { EachAxisHasTicks }
    ensures one { TicksAreOne }
    ensures few { TicksAreFew }
{}

/// In a picture with few values two cells have the same class of colours exactly where they have the same value, and, where
/// neither value has a colour of its own, the same colour. Where a field has states, few enough for a colour each, the class
/// of a state does not hang on which of them occur.
pub fn same_class_same_value()
    ensures colours { SameClassSameValue }
    ensures fills { SameColourSameValue }
    ensures states { StatesKeepTheirColours }
{}

/// In the text of a network for Graphviz each link has one line, from the lesser number to the greater and with its
/// weight, and there is no line of another link. The lines tell the links: other links have other lines.
pub fn each_link_is_drawn_once()
    ensures links { EachLinkIsDrawnOnce }
    ensures tell { LinesTellLinks }
{}

/// In the picture of a network each link has one line, from where one of its nodes stands to where the other does, and there
/// is no line of another link.
pub fn each_link_has_its_line()
    ensures links { EachLinkHasItsLine }
{}

/// The cells of a picture stand in rows of its width, one for each value in order and with the value's colour, within
/// its columns and rows, and no two at the same place. The text tells the cells: other cells have another text.
pub fn each_cell_has_its_place()
    ensures places { EachCellHasItsPlace }
    ensures tell { TextTellsCells }
{}

/// A moving picture shows in each frame, at each node's cell, the colour of the node's value after the round of that frame:
/// the last change up to then has it. In the middle of a frame exactly the changes of the frames up to it have begun, as far
/// as their times in the text, in millionths of the whole, tell.
pub fn each_frame_has_its_colours()
    ensures colours { EachFrameHasItsColours }
    ensures times { EachFrameHasItsTime }
{}

/// A value has a curve exactly where it is a state or some node has it after one of the rounds of the span. The curve has one point for
/// each round, in order, and no other; how high it stands is the number of nodes that have the value after the round.
pub fn each_round_has_its_point()
    ensures curves { EachValueHasItsCurve }
    ensures points { EachRoundHasItsPoint }
{}
