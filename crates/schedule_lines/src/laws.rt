//! What holds of the texts of lines and commands. The function does nothing: a caller who calls it has
//! its law.
ghost use Rattle.std.specs.Prelude.{◌≡◌};
ghost use Rattle.tm_base.specs.declared.message.Node.{Node};
ghost use Rattle.tm_base.specs.declared.step.Step.{Step};
ghost use Rattle.tm_base.specs.declared.step.Line.{Line};
ghost use Rattle.schedule_lines.specs.Lines.{HasText, IsSent, text_of, sent_text};

/// No two lines have the same text, and no two commands of a node have.
pub fn texts_differ()
    ensures lines { (a b : Line) → HasText a → HasText b → text_of a ≡ text_of b → a ≡ b }
    ensures commands { (node : Node) (s t : Step) → IsSent node s → IsSent node t → sent_text s ≡ sent_text t → s ≡ t }
{}
