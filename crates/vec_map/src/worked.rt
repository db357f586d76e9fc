// A worked case of a pair map.
ghost use Rattle.vec_map.specs.Worked.{Worked};

// Rows a=1, b=2, a=3: the value of a is 3 and there are three pairs; without repeats a=3, b=2; with c=4 after that and
// again without repeats c=4, b=2, a=3.
pub fn worked_case()
    ensures { Worked }
{}
