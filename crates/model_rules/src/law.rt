//! What holds by definition of random numbers and of refused models.

ghost use Rattle.model_rules.specs.Draws.{LinksAgree, DrawsAreBounded, LinkDrawsAreBounded};
ghost use Rattle.model_rules.specs.Courses.{AllAreKnown, OthersAreKnown, TurnsAreEnough, WaitsForever};
ghost use Rattle.model_rules.specs.Kinds.{OneKind};
ghost use Rattle.model_rules.specs.ModelRefusals.{OneProgramMade, OneRefusal, OneVerdict};

/// The law that both nodes of a link draw the same number for it, and that draws are from 0 to 65535.
pub fn draws_of_nodes_and_links()
    ensures agree { LinksAgree }
    ensures at_nodes { DrawsAreBounded }
    ensures on_links { LinkDrawsAreBounded }
{}

/// The law that a model is without a fault or refused for one, not both, that it is refused for one fault at most, that a part of an
/// expression is wrong in one way at most, and that a model has one program at most.
pub fn one_verdict_on_a_model()
    ensures either { OneVerdict }
    ensures refusal { OneRefusal }
    ensures kind { OneKind }
    ensures program { OneProgramMade }
{}

/// The law that the constants, states and lets of a model become known in as many turns as there are names, or not at all; and that a name
/// of which a `Ring` is told never does, where no name stands twice, but each after it, and each name where no fault is told of any.
pub fn turns_of_a_model_are_enough()
    ensures enough { TurnsAreEnough }
    ensures never { WaitsForever }
    ensures others { OthersAreKnown }
    ensures all { AllAreKnown }
{}
