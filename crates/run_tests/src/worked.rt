//! The worked example, read by the definitions alone: functions without code, whose contracts hold.
ghost use Rattle.std.specs.Prelude.{◌≡◌, codes, Ok, None, [], ◌∷◌, pos, negsuc, true, false};
ghost use Rattle.base.specs.declared.costs.Cost.TheVariants.{Whole, Infinite};
ghost use Rattle.wcnf_reader.specs.Wcnf.{reading};
ghost use Rattle.problem_form.specs.NormalForm.{normal_form};
ghost use Rattle.problem_form.specs.declared.limits.Normal.TheVariants as normals;
ghost use Rattle.problem_form.specs.Limits.{upper, penalty, limit_fault};
ghost use Rattle.wcnf_reader.specs.Cost.{wcnf_cost, problem_of};
ghost use Rattle.run_tests.specs.Worked.{clash, clash_model};
ghost use Rattle.bits_model.specs.Output.{form_of};

/// The text of the example says one variable and two clauses.
fn the_reading()
    ensures { reading (codes "p wcnf 1 2 10\n10 1 0\n3 -1 0\n") ≡ Ok clash }
{}

/// Where the variable is 1 the soft clause is paid, and where it is 0 the hard one is broken.
fn the_costs()
    ensures paid { wcnf_cost clash (true ∷ []) ≡ Whole (pos 3) }
    ensures broken { wcnf_cost clash (false ∷ []) ≡ Infinite }
{}

/// The soft weight is the upper bound, and the penalty is one more.
fn the_bounds()
    ensures upper { upper (normal_form (problem_of clash)) ≡ pos 3 }
    ensures penalty { penalty (normal_form (problem_of clash)) ≡ 4 }
    ensures within { limit_fault normals.Literal (normal_form (problem_of clash)) ≡ None }
{}

/// The model weighs its one node.
fn the_energies()
    ensures one { (form_of clash_model).cost (true ∷ []) ≡ Whole (negsuc 0) }
    ensures zero { (form_of clash_model).cost (false ∷ []) ≡ Whole (pos 0) }
{}
