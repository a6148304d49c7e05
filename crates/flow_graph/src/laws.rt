//! The walks of a graph are the executions, and a program has one list of groups. Each law is the
//! contract of a function that does nothing.
ghost use Rattle.flow_graph.specs.Groups.{GroupsAreDetermined};
ghost use Rattle.flow_graph.specs.Heights.{HeightsGrow, ReturnsHaveHeights};
ghost use Rattle.flow_graph.specs.Pending.{CallsAreEdges};
ghost use Rattle.flow_graph.specs.Stack.{FailuresAreInChains, StacksAreChains};
ghost use Rattle.flow_graph.specs.Laws.{CallsAreWalks, ChecksAreWalks, ReturnsAreWalks};

/// A procedure returns exactly as walks lead from the entry of its graph to the exit.
pub fn returns_are_walks()
    ensures { ReturnsAreWalks }
{}

/// A procedure returns exactly with a tree of calls, in which those of each call are lower.
pub fn returns_have_heights()
    ensures heights { ReturnsHaveHeights }
    ensures grow { HeightsGrow }
{}

/// An activation stands at an assertion exactly as walks lead to its node.
pub fn checks_are_walks()
    ensures { ChecksAreWalks }
{}

/// An activation stands at a call exactly as walks lead to where its edge begins, and has still to
/// do what is left where that edge ends.
pub fn calls_are_walks()
    ensures walks { CallsAreWalks }
    ensures edges { CallsAreEdges }
{}

/// A program has one list of groups.
pub fn groups_are_determined()
    ensures { GroupsAreDetermined }
{}

/// The frames of an execution are a chain of activations: each stands at the call that made the one
/// above it. An assertion fails in an activation at the top of such a chain, which begins with
/// `main`.
pub fn stacks_are_chains()
    ensures chains { StacksAreChains }
    ensures failures { FailuresAreInChains }
{}
