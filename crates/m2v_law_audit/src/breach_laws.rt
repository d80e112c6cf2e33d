// What a report finds of the rules that the verifier looks at.
ghost use Rattle.std.specs.Prelude.{◌≡◌, ℕ, List, map, length};
ghost use Rattle.m2v_model.specs.Streams.{Sofar};
ghost use Rattle.m2v_model.specs.Decoding.{Stream};
ghost use Rattle.m2v_model.specs.Lawful.{breaches_of};
ghost use Rattle.m2v_audit.specs.declared.asked.Asked.{Asked};
ghost use Rattle.m2v_law_audit.specs.Breaches.{AreSame, as_judged};
ghost use Rattle.m2v_law_audit.specs.Found.{findings_of, judged_in};

/// Of a stream without a fault the breaches of the rules 1 to 15 that are found piece by piece, whichever sequence of the input
/// it is and wherever it stands, are those that the verifier's rules define: each as often as it comes, and no others; so it is
/// as many.
pub fn law_breaches()
    ensures same { (text : List ℕ) (tree : Sofar) → Stream text tree →
        (asked : Asked) (number start : ℕ) →
        AreSame (map as_judged (judged_in (findings_of asked number start text)))
        (breaches_of tree) }
    ensures count { (text : List ℕ) (tree : Sofar) → Stream text tree →
        (asked : Asked) (number start : ℕ) →
        length (judged_in (findings_of asked number start text)) ≡ length (breaches_of tree) }
{}
