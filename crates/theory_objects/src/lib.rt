//! What an answered assertion is, and what a refusal is, as an object of JSON.
//!
//! An object is a list of fields, in their order. `object_line` of `specs/Fields` is the line that it stands in, without
//! spaces; `specs/Answers` has the object of an answered assertion, `specs/Accounts` the part of it that tells how it comes to
//! that, step by step, and `specs/Refusals` has the objects of refusals.
#![tactic(auto)]

ghost use Rattle.std.specs.Prelude.{◌≡◌, ◌≤◌, ◌∷◌, [], codes, List, None, Some};
ghost use Rattle.json.specs.Json.{document};
ghost use Rattle.json.specs.Print.{print};
ghost use Rattle.json.specs.Tree.{HasNumbers, depth, json_tokens};
ghost use Rattle.theory_syntax.specs.Process.{Interleaving, Skip, Stop};
ghost use Rattle.theory_syntax.specs.Value.{Tau, Tick};
ghost use Rattle.theory_semantics.specs.Meaning.Violations.{ByDeadlock, ByDivergence};
ghost use Rattle.theory_origins.specs.Origin.{Below, Chooses, Does, Ends, Hides, InBody, InChain, Left, OnBranch, Renames, Right, SideEnds, Slides, Together, UnderGuard, Unfolds};
ghost use Rattle.theory_runs.specs.Stuck.{BySize};
ghost use Rattle.theory_notation.specs.Samples.{names, p};
ghost use Rattle.theory_explanation.specs.Accounts.{Bare, Shown, Stuck, WideEnd};
ghost use Rattle.theory_explanation.specs.Faults.{OfImplementation, OfSpecification};
ghost use Rattle.theory_explanation.specs.Samples.{below, c, event};
ghost use Rattle.theory_objects.specs.Accounts.{account_fields, origin_fields};
ghost use Rattle.theory_objects.specs.Answers.{cost_fields};
ghost use Rattle.theory_objects.specs.Fields.{Field, number_field, object_line, object_of, text_field, texts_field};
ghost use Rattle.theory_objects.specs.Refusals.{help_fields, refusal_fields, unread_fields};

/// Small objects have the lines of worked examples.
pub fn lines_of_small_objects()
    ensures none { object_line [] ≡ codes "{}\n" }
    ensures fields { object_line
        (number_field (codes "n") 70 ∷ texts_field (codes "of") (codes "a.1" ∷ codes "b" ∷ []) ∷ [])
        ≡ codes "{\"n\":70,\"of\":[\"a.1\",\"b\"]}\n" }
    ensures escaped { object_line (text_field (codes "P") (codes "Q \\ {\"\n") ∷ [])
        ≡ codes "{\"P\":\"Q \\\\ {\\\"\\n\"}\n" }
    ensures cost { object_line (cost_fields (Some 1532) (Some 216064))
        ≡ codes "{\"milliseconds\":1532,\"kilobytes\":216064}\n" }
    ensures time { object_line (cost_fields (Some 1532) None) ≡ codes "{\"milliseconds\":1532}\n" }
    ensures refused { object_line (refusal_fields (codes "memory"))
        ≡ codes "{\"answer\":\"refused\",\"refusal\":\"memory\"}\n" }
    ensures help { object_line (help_fields (codes "help: `;`\n"))
        ≡ codes "{\"help\":\"help: `;`\\n\"}\n" }
    ensures no_help { object_line (help_fields []) ≡ codes "{}\n" }
    ensures unread { object_line (unread_fields (codes "a b") (codes "it is a folder"))
        ≡ codes "{\"answer\":\"refused\",\"refusal\":\"file\",\"file\":\"a b\",\"reason\":\"it is a folder\"}\n" }
{}

/// Where small steps come from, by the way down to the part that moves and by what moves it; and of events by the parts that
/// do them.
pub fn lines_of_small_origins()
    ensures unfolds { object_line (origin_fields names []
        (below Left (Below InBody (below Right (Below InChain (Unfolds 0))))))
        ≡ codes "{\"way\":[\"left\",\"right\"],\"kind\":\"unfolds\",\"name\":\"P\"}\n" }
    ensures chooses { object_line (origin_fields names []
        (Below (OnBranch Right) (Below UnderGuard (Chooses Left))))
        ≡ codes "{\"way\":[\"right\"],\"kind\":\"chooses\",\"side\":\"left\"}\n" }
    ensures slides { object_line (origin_fields names [] Slides)
        ≡ codes "{\"way\":[],\"kind\":\"slides\"}\n" }
    ensures ends { object_line (origin_fields names [] (Below (SideEnds Left) Ends))
        ≡ codes "{\"way\":[\"left\"],\"kind\":\"ends\"}\n" }
    ensures does { object_line (origin_fields names [] (below Left (Does (event 1))))
        ≡ codes "{\"way\":[\"left\"],\"kind\":\"does\",\"event\":\"c.1\",\"parts\":[{\"way\":[\"left\"],\"event\":\"c.1\"}]}\n" }
    ensures hides { object_line (origin_fields names []
        (below Left (Below (Hides (event 1)) (below Right (Below (Renames (event 2) (event 1)) (Does (event 2)))))))
        ≡ codes "{\"way\":[\"left\"],\"kind\":\"hides\",\"event\":\"c.1\",\"parts\":[{\"way\":[\"left\",\"right\"],\"event\":\"c.2\"}]}\n" }
    ensures renames { object_line (origin_fields names []
        (Below (Renames (event 2) (event 1)) (Does (event 2))))
        ≡ codes "{\"way\":[],\"kind\":\"renames\",\"event\":\"c.1\",\"parts\":[{\"way\":[],\"event\":\"c.2\"}]}\n" }
    ensures together { object_line (origin_fields names []
        (Together (Does (event 1)) (below Left (Does (event 1)))))
        ≡ codes "{\"way\":[],\"kind\":\"together\",\"parts\":[{\"way\":[\"left\"],\"event\":\"c.1\"},{\"way\":[\"right\",\"left\"],\"event\":\"c.1\"}]}\n" }
{}

/// Small accounts: a run to a deadlock, with the parts that wait there; a divergence with its loop; a run of a side; and those
/// that tell no run.
pub fn lines_of_small_accounts()
    ensures deadlock { object_line (account_fields names
        (Shown (record { path = Tau ∷ []; evidence = ByDeadlock })
        (record {
          states = Interleaving p Stop ∷ Interleaving Stop Stop ∷ [];
          origins = Some (below Left (Unfolds 0)) ∷ [];
          counterpart = None;
          loop = None;
          waiting = record { way = Left ∷ []; process = Stop; initials = [] }
              ∷ record { way = Right ∷ []; process = Stop; initials = Tick ∷ [] } ∷ [];
        })))
        ≡ codes "{\"start\":\"P ||| STOP\",\"steps\":[{\"action\":\"tau\",\"state\":\"STOP ||| STOP\",\"origin\":{\"way\":[\"left\"],\"kind\":\"unfolds\",\"name\":\"P\"}}],\"waiting\":[{\"way\":[\"left\"],\"process\":\"STOP\",\"initials\":[]},{\"way\":[\"right\"],\"process\":\"STOP\",\"initials\":[\"tick\"]}]}\n" }
    ensures divergence { object_line (account_fields names
        (Shown (record { path = []; evidence = ByDivergence })
        (record {
          states = p ∷ [];
          origins = [];
          counterpart = None;
          loop = Some (record { states = p ∷ Skip ∷ []; back = 1; origins = Some Slides ∷ None ∷ [] });
          waiting = [];
        })))
        ≡ codes "{\"start\":\"P\",\"steps\":[],\"loop\":{\"back\":1,\"steps\":[{\"action\":\"tau\",\"state\":\"SKIP\",\"origin\":{\"way\":[],\"kind\":\"slides\"}},{\"action\":\"tau\",\"state\":\"SKIP\"}]}}\n" }
    ensures alone { object_line (account_fields names
        (Shown (record { path = []; evidence = ByDeadlock })
        (record {
          states = Stop ∷ [];
          origins = [];
          counterpart = None;
          loop = None;
          waiting = record { way = []; process = Stop; initials = [] } ∷ [];
        }))) ≡ codes "{\"start\":\"STOP\",\"steps\":[]}\n" }
    ensures side { object_line (account_fields names
        (Stuck BySize (Some (OfSpecification (c 1 ∷ []) (p ∷ Stop ∷ []) (None ∷ [])))))
        ≡ codes "{\"side\":\"specification\",\"start\":\"P\",\"steps\":[{\"action\":\"c.1\",\"state\":\"STOP\"}]}\n" }
    ensures other { object_line (account_fields names
        (Stuck BySize (Some (OfImplementation [] (p ∷ []) []))))
        ≡ codes "{\"side\":\"implementation\",\"start\":\"P\",\"steps\":[]}\n" }
    ensures none { object_line (account_fields names Bare) ≡ codes "{}\n" }
    ensures wide { object_line (account_fields names WideEnd) ≡ codes "{}\n" }
    ensures no_run { object_line (account_fields names (Stuck BySize None)) ≡ codes "{}\n" }
{}

/// What is read of an object's text is that object, where its numbers are numbers and it nests no deeper than 128.
pub fn objects_are_read_again()
    ensures { (fields : List Field) → HasNumbers (object_of fields) → depth (object_of fields) ≤ 128
        → document (print (json_tokens (object_of fields))) ≡ Some (object_of fields) }
{}
