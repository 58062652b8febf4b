// The one-dimensional transformation of a row and of a column: three steps, each in the clause's letters for a row.
ghost use Rattle.std.specs.Prelude.{◌≡◌};
ghost use Rattle.laws.specs.Range.{AllWithin, at};
ghost use Rattle.transform_8x8.specs.Inverse8x8.{first_step, second_step, third_step, one_dimensional};

// The values after the first step and after the third, of a row; those of a column are h and m.
#[derive(Clone, Copy)]
pub(crate) struct Steps {
    pub e: [i32; 8],
    pub g: [i32; 8],
}

// All three, for the coefficients of a row and for the larger numbers of a column.
pub(crate) fn one_dimensional(d: [i32; 8]) -> Steps
    requires { AllWithin 241664 d }
    ensures e_value { result.e ≡ first_step (at d) }
    ensures g_value { result.g ≡ one_dimensional (at d) }
{
    let e = first_step(d);
    let g = third_step(second_step(e));
    Steps { e, g }
}

fn first_step(d: [i32; 8]) -> [i32; 8]
    requires { AllWithin 241664 d }
    ensures { result ≡ first_step (at d) }
{
    let [d0, d1, d2, d3, d4, d5, d6, d7] = d;
    let e0 = d0 + d4;
    let e1 = -d3 + d5 - d7 - (d7 >> 1);
    let e2 = d0 - d4;
    let e3 = d1 + d7 - d3 - (d3 >> 1);
    let e4 = (d2 >> 1) - d6;
    let e5 = -d1 + d7 + d5 + (d5 >> 1);
    let e6 = d2 + (d6 >> 1);
    let e7 = d3 + d5 + d1 + (d1 >> 1);
    [e0, e1, e2, e3, e4, e5, e6, e7]
}

fn second_step(e: [i32; 8]) -> [i32; 8]
    requires { AllWithin 845824 e }
    ensures { result ≡ second_step (at e) }
{
    let [e0, e1, e2, e3, e4, e5, e6, e7] = e;
    let f0 = e0 + e6;
    let f1 = e1 + (e7 >> 2);
    let f2 = e2 + e4;
    let f3 = e3 + (e5 >> 2);
    let f4 = e2 - e4;
    let f5 = (e3 >> 2) - e5;
    let f6 = e0 - e6;
    let f7 = e7 - (e1 >> 2);
    [f0, f1, f2, f3, f4, f5, f6, f7]
}

fn third_step(f: [i32; 8]) -> [i32; 8]
    requires { AllWithin 936448 f }
    ensures { result ≡ third_step (at f) }
{
    let [f0, f1, f2, f3, f4, f5, f6, f7] = f;
    let g0 = f0 + f7;
    let g1 = f2 + f5;
    let g2 = f4 + f3;
    let g3 = f6 + f1;
    let g4 = f6 - f1;
    let g5 = f4 - f3;
    let g6 = f2 - f5;
    let g7 = f0 - f7;
    [g0, g1, g2, g3, g4, g5, g6, g7]
}
