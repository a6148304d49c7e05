ghost use Rattle.std.specs.Prelude.{◌≡◌, [], ◌∷◌, pos};
ghost use Rattle.farkas_check.specs.declared.question.Question.TheVariants.{Infeasible, Sup};
ghost use Rattle.farkas_check.specs.Calm.{corner, choices, IsCalm, IsTame};
ghost use Rattle.farkas_check.specs.Frames.{frame_of, IsTableau};
ghost use Rattle.farkas_check.specs.Sizes.{row_polys, HasRationalPoint, IsDead, IsSlim, IsNarrow};
ghost use Rattle.question_examples.specs.Examples.{x0, exclusive, half_line, half_line_frame, half_line_multiple};

/// Three small rows that exclude each other are a slim and a narrow question.
pub fn narrow_question()
    ensures slim { IsSlim exclusive }
    ensures narrow { IsNarrow exclusive }
{}

/// A supremum over no case is dead; `2 * x0 - 5 <= 0` has a rational point.
pub fn dead_question()
    ensures dead { IsDead (Sup []) }
    ensures point { HasRationalPoint half_line }
{}

/// The frame of `2 * x0 - 5 <= 0` has a tableau that chooses x0, whose corner is 5 / 2. With one
/// more line there are 35 choices of the frame of three rows over two columns.
pub fn corner_and_choices()
    ensures frame { frame_of (x0 ∷ []) (row_polys half_line []) ≡ half_line_frame }
    ensures tableau { IsTableau half_line_frame (0 ∷ []) (pos 2) half_line_multiple }
    ensures corner { corner 1 (0 ∷ []) half_line_multiple 0 ≡ pos 5 }
    ensures choices { choices exclusive ≡ 35 ∷ [] }
{}

/// No rows are a calm question, and the narrow one is tame.
pub fn calm_and_tame_questions()
    ensures calm { IsCalm (Infeasible []) }
    ensures tame { IsTame exclusive }
{}
