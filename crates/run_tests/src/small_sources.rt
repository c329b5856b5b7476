//! Small sources of every format, over three variables, and what their assignments cost, by plain
//! arithmetic on what was drawn, outside of these tests.

/// The names of the variables of polynomials, and their places.
pub(crate) const NAMES: [(&str, i64); 3] = [("b", 0), ("a", 1), ("c", 2)];

/// The formats, and ten sources of each.
pub(crate) const FORMATS: [(&str, &str); 6] = [
    ("wcnf", CLAUSES),
    ("wbo", SOFT),
    ("poly", PRODUCTS),
    ("opb", BOUNDED),
    ("qubo", BITS),
    ("ising", SPINS),
];

/// Clauses, of which those of weight 9 are hard.
const CLAUSES: &str = "\
    p wcnf 3 3 9\n2 -1 -2 -3 0\n4 3 0\n1 -3 0\n|\
    4 4 4 4 1 1 1 3@\
    p wcnf 3 3 9\n2 1 -2 -3 0\n4 -1 -2 -3 0\n4 -1 3 0\n|\
    0 4 0 4 0 0 2 4@\
    p wcnf 3 3 9\n4 -1 2 -3 0\n4 -1 3 0\n4 -1 -2 3 0\n|\
    0 4 0 8 0 4 0 0@\
    p wcnf 3 3 9\n2 1 -2 3 0\n1 -3 0\n1 -1 2 -3 0\n|\
    0 0 2 0 1 2 1 1@\
    p wcnf 3 3 9\n2 -1 -2 -3 0\n9 -2 3 0\n2 2 3 0\n|\
    2 2 999 999 0 0 0 2@\
    p wcnf 3 3 9\n9 1 -2 -3 0\n9 2 0\n1 -1 -2 3 0\n|\
    999 999 0 1 999 999 999 0@\
    p wcnf 3 3 9\n1 -1 -2 -3 0\n1 -1 2 3 0\n4 1 -2 -3 0\n|\
    0 1 0 0 0 0 4 1@\
    p wcnf 3 3 9\n1 -1 -2 -3 0\n2 -1 -2 0\n4 -1 2 0\n|\
    0 4 0 2 0 4 0 3@\
    p wcnf 3 3 9\n2 1 -2 -3 0\n1 -2 0\n9 2 0\n|\
    999 999 1 1 999 999 3 1@\
    p wcnf 3 3 9\n9 -1 -2 3 0\n9 1 2 -3 0\n1 1 2 0\n|\
    1 0 0 999 999 0 0 0";

/// Two constraints, hard or soft.
const SOFT: &str = "\
    soft: 7 ;\n[1] -1 ~x1 1 ~x3 >= 0 ;\n[4] 1 x1 1 ~x2 >= 0 ;\n|\
    0 0 0 0 1 0 1 0@\
    soft: 4 ;\n[1] 1 ~x2 1 ~x3 = 2 ;\n1 x1 -1 x2 >= 0 ;\n|\
    0 0 999 1 1 1 999 1@\
    soft: ;\n1 x1 -1 x3 = 0 ;\n[4] 1 x2 1 ~x3 >= 1 ;\n|\
    0 999 0 999 999 4 999 0@\
    soft: ;\n1 x1 -1 ~x2 >= 0 ;\n[2] 2 x2 1 x3 = 0 ;\n|\
    999 0 2 2 999 2 2 2@\
    soft: 4 ;\n[3] 2 x2 1 ~x3 >= 0 ;\n-1 ~x1 1 ~x2 = 1 ;\n|\
    999 0 999 999 999 0 999 999@\
    soft: 5 ;\n1 ~x1 2 x2 = 2 ;\n[3] 2 x2 1 x3 >= 1 ;\n|\
    999 999 999 0 999 999 999 0@\
    soft: 5 ;\n[3] 1 ~x2 -1 x3 >= 2 ;\n[1] 1 x1 -1 x2 >= 1 ;\n|\
    4 3 4 4 4 3 4 4@\
    soft: 5 ;\n[2] 2 x2 1 ~x3 >= 2 ;\n[1] 1 x1 -1 x3 >= 1 ;\n|\
    3 2 1 0 3 3 1 1@\
    soft: 7 ;\n2 ~x1 1 ~x3 = 1 ;\n[2] -1 x1 1 x2 >= 0 ;\n|\
    999 2 999 0 999 999 999 999@\
    soft: ;\n2 x2 2 x3 >= 1 ;\n[4] -1 x1 1 x3 >= 0 ;\n|\
    999 999 0 4 0 0 0 0";

/// Polynomials. The first line numbers the variables.
const PRODUCTS: &str = "\
    0 b a c\n-6 b ~a ~c\n-6 ~b a ~c\n5 a c\n|\
    0 -6 -6 0 0 0 5 5@\
    0 b a c\n-6 b\n2 ~b a ~c\n5 a\n|\
    0 -6 7 -1 0 -6 5 -1@\
    0 b a c\n2 ~b a ~c\n-1 b ~a ~c\n-1 a ~c\n|\
    0 -1 1 -1 0 0 0 0@\
    0 b a c\n-6 ~b c\n2 ~b\n5 b c\n|\
    2 0 2 0 -4 5 -4 5@\
    0 b a c\n5 b ~a c\n2 c\n-3 a c\n|\
    0 0 0 0 2 7 -1 -1@\
    0 b a c\n-3 ~a\n-1 b a ~c\n5 ~b a\n|\
    -3 -3 5 -1 -3 -3 5 0@\
    0 b a c\n-6 ~b a c\n-6 ~b\n-3 b ~c\n|\
    -6 -3 -6 -3 -6 0 -12 0@\
    0 b a c\n-3 ~c\n-3 ~a\n-6 b ~a\n|\
    -6 -12 -3 -3 -3 -9 0 0@\
    0 b a c\n2 b a ~c\n-3 b c\n5 ~a\n|\
    5 5 0 2 5 2 0 -3@\
    0 b a c\n2 b a\n-3 ~b ~a ~c\n-1 ~b ~a\n|\
    -4 0 0 2 -1 0 0 2";

/// Sums of products, under a bound for a weighted sum of the variables.
const BOUNDED: &str = "\
    min: 5 ~x2 -4 ~x1 x2 ;\n3 x1 2 x2 1 x3 >= 4 ;\n|\
    999 999 999 0 999 5 999 0@\
    min: 5 ~x2 -2 x1 ~x2 ;\n3 x1 2 x2 2 x3 >= 6 ;\n|\
    999 999 999 999 999 999 999 0@\
    min: -4 ~x3 3 x1 x2 ;\n3 x1 1 x2 1 x3 >= 5 ;\n|\
    999 999 999 999 999 999 999 3@\
    min: -4 x3 -4 x1 ~x2 ;\n3 x1 2 x2 2 x3 >= 4 ;\n|\
    999 999 999 0 999 -8 -4 -4@\
    min: -4 x1 x2 -2 ~x1 x3 ;\n3 x1 3 x2 3 x3 >= 7 ;\n|\
    999 999 999 999 999 999 999 -4@\
    min: -2 ~x1 ~x3 -4 ~x1 x2 ;\n3 x1 3 x2 2 x3 >= 5 ;\n|\
    999 999 999 0 999 0 -4 0@\
    min: 3 ~x1 x2 -2 x1 ~x2 ;\n1 x1 3 x2 1 x3 >= 3 ;\n|\
    999 999 3 0 999 999 3 0@\
    min: -4 x2 -4 x1 ~x3 ;\n1 x1 3 x2 3 x3 >= 6 ;\n|\
    999 999 999 999 999 999 -4 -4@\
    min: -2 ~x1 x2 5 ~x2 ~x3 ;\n3 x1 1 x2 2 x3 >= 3 ;\n|\
    999 5 999 0 999 0 -2 0@\
    min: -4 x3 3 ~x2 ;\n1 x1 1 x2 3 x3 >= 10 ;\n|\
    999 999 999 999 999 999 999 999";

/// Weights of bits and their pairs.
const BITS: &str = "\
    p qubo 0 3 3 3\n0 0 4\n1 1 -5\n2 2 4\n0 1 -5\n0 2 0\n1 2 -2\n|\
    0 4 -5 -6 4 8 -3 -4@\
    p qubo 0 3 3 3\n0 0 4\n1 1 -2\n2 2 -2\n0 1 -2\n0 2 0\n1 2 -5\n|\
    0 4 -2 0 -2 2 -9 -7@\
    p qubo 0 3 3 3\n0 0 -5\n1 1 -5\n2 2 -2\n0 1 1\n0 2 3\n1 2 4\n|\
    0 -5 -5 -9 -2 -4 -3 -4@\
    p qubo 0 3 3 3\n0 0 3\n1 1 1\n2 2 4\n0 1 0\n0 2 3\n1 2 0\n|\
    0 3 1 4 4 10 5 11@\
    p qubo 0 3 3 3\n0 0 4\n1 1 3\n2 2 3\n0 1 -2\n0 2 0\n1 2 -5\n|\
    0 4 3 5 3 7 1 3@\
    p qubo 0 3 3 3\n0 0 -5\n1 1 -5\n2 2 3\n0 1 3\n0 2 3\n1 2 1\n|\
    0 -5 -5 -7 3 1 -1 0@\
    p qubo 0 3 3 3\n0 0 -2\n1 1 -2\n2 2 -2\n0 1 3\n0 2 0\n1 2 -2\n|\
    0 -2 -2 -1 -2 -4 -6 -5@\
    p qubo 0 3 3 3\n0 0 -2\n1 1 0\n2 2 -5\n0 1 -2\n0 2 3\n1 2 0\n|\
    0 -2 0 -4 -5 -4 -5 -6@\
    p qubo 0 3 3 3\n0 0 1\n1 1 -2\n2 2 -5\n0 1 -5\n0 2 -2\n1 2 -5\n|\
    0 1 -2 -6 -5 -6 -12 -18@\
    p qubo 0 3 3 3\n0 0 3\n1 1 -2\n2 2 3\n0 1 0\n0 2 0\n1 2 0\n|\
    0 3 -2 1 3 6 1 4";

/// Weights of spins and their pairs.
const SPINS: &str = "\
    p ising 3 3 3\n0 0 6\n1 1 -4\n2 2 0\n0 1 6\n0 2 -4\n1 2 2\n|\
    2 10 -22 10 6 -2 -10 6@\
    p ising 3 3 3\n0 0 -4\n1 1 0\n2 2 0\n0 1 6\n0 2 2\n1 2 2\n|\
    14 -10 -2 -2 6 -10 -2 6@\
    p ising 3 3 3\n0 0 0\n1 1 -4\n2 2 -4\n0 1 -4\n0 2 -4\n1 2 -4\n|\
    -4 12 4 4 4 4 -4 -20@\
    p ising 3 3 3\n0 0 3\n1 1 0\n2 2 2\n0 1 0\n0 2 2\n1 2 3\n|\
    0 2 -6 -4 -6 4 0 10@\
    p ising 3 3 3\n0 0 0\n1 1 -4\n2 2 6\n0 1 2\n0 2 6\n1 2 -4\n|\
    2 -14 -2 -10 10 18 -10 6@\
    p ising 3 3 3\n0 0 -4\n1 1 2\n2 2 -4\n0 1 0\n0 2 6\n1 2 -4\n|\
    8 -12 20 0 -4 0 -8 -4@\
    p ising 3 3 3\n0 0 6\n1 1 3\n2 2 3\n0 1 -4\n0 2 6\n1 2 -4\n|\
    -14 -6 8 0 -12 20 -6 10@\
    p ising 3 3 3\n0 0 0\n1 1 6\n2 2 -4\n0 1 2\n0 2 2\n1 2 -4\n|\
    -2 -10 14 14 -6 -6 -6 2@\
    p ising 3 3 3\n0 0 0\n1 1 3\n2 2 -4\n0 1 6\n0 2 -4\n1 2 6\n|\
    9 5 -9 11 -3 -23 3 7@\
    p ising 3 3 3\n0 0 -4\n1 1 3\n2 2 6\n0 1 6\n0 2 -4\n1 2 3\n|\
    0 -12 -12 0 14 -14 14 10";
