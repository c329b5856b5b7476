//! Fifty polynomials of five products over four variables, and what their assignments cost, by
//! plain arithmetic on what was drawn, outside of these tests.

/// The first line numbers the variables, and says nothing.
pub(crate) const POLYNOMIALS: &str = "\
    0 a b c d\n5 b c ~d\n5 ~a ~b\n-3 c\n-7 a ~c d\n2 ~a b ~c ~d\n|\
    5 0 2 0 2 -3 2 2 5 -7 0 -7 2 -3 -3 -3@\
    0 a b c d\n-1\n5 ~a b d\n1 a ~d\n2 a ~b c\n-3 a ~b\n|\
    -1 -3 -1 0 -1 -1 -1 0 -1 -4 4 -1 -1 -2 4 -1@\
    0 a b c d\n2 ~c ~d\n5 ~d\n5 ~a b c\n-7 ~b ~c d\n-1 ~a ~b ~c d\n|\
    7 7 7 7 5 5 10 5 -8 -7 0 0 0 0 5 0@\
    0 a b c d\n5 a ~b c\n5 a ~b ~c\n-3 ~b d\n5 b c ~d\n5 a ~b ~d\n|\
    0 10 0 0 0 10 5 5 -3 2 0 0 -3 2 0 0@\
    0 a b c d\n-1 a b ~c ~d\n5 a ~b ~c d\n-3 ~a ~b ~c ~d\n-3 b d\n-1 a c\n|\
    -3 0 0 -1 0 -1 0 -1 0 5 -3 -3 0 -1 -3 -4@\
    0 a b c d\n2 ~a b c d\n5 ~a b ~c\n1 ~c\n5 ~a c\n2 a\n|\
    1 3 6 3 5 2 5 2 1 3 6 3 5 2 7 2@\
    0 a b c d\n5 ~a ~d\n5 c\n5 a b c d\n-1 a d\n-3 a c d\n|\
    5 0 5 0 10 5 10 5 0 -1 0 -1 5 1 5 6@\
    0 a b c d\n-1 ~a ~c d\n5 a c d\n-3 ~b ~c\n2 ~d\n2 a b ~d\n|\
    -1 -1 2 4 2 2 2 4 -4 -3 -1 0 0 5 0 5@\
    0 a b c d\n2 ~b c ~d\n5 a ~b c ~d\n1 a ~b c d\n-1 ~b\n5 b c\n|\
    -1 -1 0 0 1 6 5 5 -1 -1 0 0 -1 0 5 5@\
    0 a b c d\n5 ~b ~c d\n5 ~a b d\n5 ~a c ~d\n2 ~a ~b ~c ~d\n-1 b d\n|\
    2 0 0 0 5 0 5 0 5 5 4 -1 0 0 4 -1@\
    0 a b c d\n-3 a ~b c ~d\n-3 b c d\n-3 a b d\n1 ~a b ~c d\n5 ~b c ~d\n|\
    0 0 0 0 5 2 0 0 0 0 1 -3 0 0 -3 -6@\
    0 a b c d\n2 a ~b d\n-3 a ~d\n1 ~a ~b c ~d\n5 ~a b c ~d\n-3 ~b ~c d\n|\
    0 -3 0 -3 1 -3 5 -3 -3 -1 0 0 0 2 0 0@\
    0 a b c d\n5 a b ~c\n-3 a ~b ~c d\n5 ~b\n1 a b ~c\n2 ~a c ~d\n|\
    5 5 0 6 7 5 2 0 5 2 0 6 5 5 0 0@\
    0 a b c d\n-3 ~a b d\n-3 ~b ~d\n5 a ~c ~d\n5 a c ~d\n5 ~a ~c\n|\
    2 2 5 5 -3 2 0 5 5 0 2 0 0 0 -3 0@\
    0 a b c d\n2 ~a ~c\n-3 b ~c ~d\n-3 ~a b ~c\n2\n-1 a d\n|\
    4 2 -2 -1 2 2 2 2 4 1 1 1 2 1 2 1@\
    0 a b c d\n5 c d\n-3 a c\n1 ~b c\n-7 ~b c ~d\n5 ~a b c ~d\n|\
    0 0 0 0 -6 -9 5 -3 0 0 0 0 6 3 5 2@\
    0 a b c d\n-3 ~b ~d\n-3 ~a ~b c ~d\n5 ~a ~b ~c ~d\n-1 b\n-1 ~a b ~d\n|\
    2 -3 -2 -1 -6 -3 -2 -1 0 0 -1 -1 0 0 -1 -1@\
    0 a b c d\n2 a ~b ~c ~d\n-3 ~b c\n-3 a c\n-7 ~a b d\n2 a b c\n|\
    0 2 0 0 -3 -6 0 -1 0 0 -7 0 -3 -6 -7 -1@\
    0 a b c d\n5 a b\n-1 ~b\n1 ~a b c d\n1 a ~c\n-3 a ~b ~c d\n|\
    -1 0 0 6 -1 -1 0 5 -1 -3 0 6 -1 -1 1 5@\
    0 a b c d\n-3 a b ~c ~d\n-1 ~a ~d\n5 ~b\n-3 ~c d\n-1 a b c ~d\n|\
    4 5 -1 -3 4 5 -1 -1 2 2 -3 -3 5 5 0 0@\
    0 a b c d\n2 ~a c\n-1 ~a\n-3 a ~b c d\n1 ~b ~c\n5 a ~b ~c\n|\
    0 6 -1 0 1 0 1 0 0 6 -1 0 1 -3 1 0@\
    0 a b c d\n5 ~a ~d\n-1 ~b ~c d\n2 ~a ~d\n-1 ~b c ~d\n-1 c d\n|\
    7 0 7 0 6 -1 7 0 -1 -1 0 0 -1 -1 -1 -1@\
    0 a b c d\n-3 ~b c\n-1 a b ~c d\n2 a b ~c d\n2 ~a ~b ~c ~d\n5 ~b ~c ~d\n|\
    7 5 0 0 -3 -3 0 0 0 0 0 1 -3 -3 0 0@\
    0 a b c d\n-1 b ~c ~d\n-1 ~a b ~c\n-7 ~a b ~c ~d\n-1 ~a b c d\n-1 c\n|\
    0 0 -9 -1 -1 -1 -1 -1 0 0 -1 0 -1 -1 -2 -1@\
    0 a b c d\n5 b c d\n-1 ~a ~c d\n-1 ~b c\n2 a b c\n-1 b ~c ~d\n|\
    0 0 -1 -1 -1 -1 0 2 -1 0 -1 0 -1 -1 5 7@\
    0 a b c d\n-3 a ~d\n-1 ~a c ~d\n2 a ~c ~d\n-3 a d\n5 ~a\n|\
    5 -1 5 -1 4 -3 4 -3 5 -3 5 -3 5 -3 5 -3@\
    0 a b c d\n-1 a ~c d\n2 a b c\n-7 ~a b c\n5 a\n-1 ~a b ~c\n|\
    0 5 -1 5 0 5 -7 7 0 4 -1 4 0 5 -7 7@\
    0 a b c d\n5 ~a ~b ~d\n2 a b c d\n-1 a b c\n-3\n5 a ~b d\n|\
    2 -3 -3 -3 2 -3 -3 -4 -3 2 -3 -3 -3 2 -3 -2@\
    0 a b c d\n-3 ~a ~b ~c\n2 ~a b ~d\n2 ~b ~d\n5 ~b ~c ~d\n-1 ~a b c ~d\n|\
    4 7 2 0 2 2 1 0 -3 0 0 0 0 0 0 0@\
    0 a b c d\n-1 ~a b c\n2 ~b\n-7 a c\n-1 a ~b d\n5 ~a ~b ~c\n|\
    7 2 0 0 2 -5 -1 -7 7 1 0 0 2 -6 -1 -7@\
    0 a b c d\n2 b d\n2 a ~b ~d\n-7 ~a b d\n-7 a b ~c ~d\n5 a c d\n|\
    0 2 0 -7 0 2 0 0 0 0 -5 2 0 5 -5 7@\
    0 a b c d\n-3 ~c\n2 a ~b ~c ~d\n-1 b ~c\n-1 a c\n-1 a ~b ~c ~d\n|\
    -3 -2 -4 -4 0 -1 0 -1 -3 -3 -4 -4 0 -1 0 -1@\
    0 a b c d\n-1 a d\n2 b ~c\n2 a ~b ~c d\n-3 c ~d\n5 a c\n|\
    0 0 2 2 -3 2 -3 2 0 1 2 1 0 4 0 4@\
    0 a b c d\n2 a ~c ~d\n2 ~c ~d\n-7 ~a c ~d\n1 ~b c\n-1 a ~c d\n|\
    2 4 2 4 -6 1 -7 0 0 -1 0 -1 1 1 0 0@\
    0 a b c d\n-3 a c d\n2 a ~b c\n-1 a b ~c d\n-3 ~a ~b c ~d\n5 ~d\n|\
    5 5 5 5 2 7 5 5 0 0 0 -1 0 -1 0 -3@\
    0 a b c d\n-1 ~a ~b\n2 ~a ~b\n2 ~a b c ~d\n1 ~a b\n-7 b ~c\n|\
    1 0 -6 -7 1 0 3 0 1 0 -6 -7 1 0 1 0@\
    0 a b c d\n2 ~a ~b ~c ~d\n2 b c d\n-7 ~b c\n-7 ~a b d\n-1 b\n|\
    2 0 -1 -1 -7 -7 -1 -1 0 0 -8 -1 -7 -7 -6 1@\
    0 a b c d\n-3 b\n2\n-1 ~a ~d\n2 a b\n5 ~b ~c d\n|\
    1 2 -2 1 1 2 -2 1 7 7 -1 1 2 2 -1 1@\
    0 a b c d\n-1 b ~c ~d\n2 ~a d\n2 c ~d\n-7 a ~c d\n-1 ~a ~b\n|\
    -1 0 -1 -1 1 2 2 2 1 -7 2 -7 1 0 2 0@\
    0 a b c d\n2 a c\n2 ~a ~b d\n2 ~a b\n2 ~c\n5 ~a ~b ~c d\n|\
    2 2 4 2 0 2 2 2 9 2 4 2 2 2 2 2@\
    0 a b c d\n-3 a d\n2 b ~c ~d\n-7 ~b ~c ~d\n-3 ~a ~b ~c ~d\n-1 ~a ~d\n|\
    -11 -7 1 2 -1 0 -1 0 0 -3 0 -3 0 -3 0 -3@\
    0 a b c d\n-1 a ~b c d\n2 b ~c d\n-1 a ~c\n5 ~a ~b ~c ~d\n1 ~a\n|\
    6 -1 1 -1 1 0 1 0 1 -1 3 1 1 -1 1 0@\
    0 a b c d\n2 ~a b ~d\n2 ~a ~c ~d\n2 ~a c d\n-3 a ~b c d\n5 ~a ~c d\n|\
    2 0 4 0 0 0 2 0 5 0 5 0 2 -3 2 0@\
    0 a b c d\n-3 ~a b ~c d\n-7 ~a ~b c ~d\n-7 ~c\n5 a b c\n-1 a b ~d\n|\
    -7 -7 -7 -8 -7 0 0 4 -7 -7 -10 -7 0 0 0 5@\
    0 a b c d\n-1 c ~d\n-7 ~a b c d\n-1 a b c d\n-1 b c d\n5 a b ~c\n|\
    0 0 0 5 -1 -1 -1 -1 0 0 0 5 0 0 -8 -2@\
    0 a b c d\n2\n-7 a b c ~d\n2 ~b ~d\n2\n-1 a b d\n|\
    6 6 4 4 6 6 4 -3 4 4 4 3 4 4 4 3@\
    0 a b c d\n-3 ~b c ~d\n-7 a\n-7 a ~b d\n-1 ~b\n1 a ~b ~c d\n|\
    -1 -8 0 -7 -4 -11 0 -7 -1 -14 0 -7 -1 -15 0 -7@\
    0 a b c d\n-1 a ~b d\n-3 ~a ~b\n-1 c ~d\n5 ~a ~b ~d\n-7 ~b ~d\n|\
    -5 -7 0 0 -6 -8 -1 -1 -3 -1 0 0 -3 -1 0 0@\
    0 a b c d\n2 a b ~c\n-3 ~b ~d\n-1 a b\n1 ~a b ~c d\n-1 ~b c\n|\
    -3 -3 0 1 -4 -4 0 -1 0 0 1 1 -1 -1 0 -1@\
    0 a b c d\n-3 ~a b c d\n-3 a ~b ~c\n2 ~a ~b ~c ~d\n5 a b ~c ~d\n5 d\n|\
    2 -3 0 5 0 0 0 0 5 2 5 5 5 5 2 5";
