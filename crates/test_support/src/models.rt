//! Texts of models that several crates of tests read, write or check logs over, and refutations of one of them.
//!
//! In an encoding of a pattern into n vertices, p goes to t where variable `n p + t + 1` is one.

/// That `x1` is one, and that it is not.
pub const NOT_BOTH: &[u8] = b"* #variable= 1 #constraint= 2\n+1 x1 >= 1 ;\n-1 x1 >= 0 ;\n";

/// That one of two variables is one, and that it is `x1` where `x2` is.
pub const OPEN: &[u8] = b"* #variable= 2 #constraint= 2\n+1 x1 +1 x2 >= 1 ;\n+1 x1 -1 x2 >= 0 ;\n";

/// An edge into an edge.
pub const EDGE_INTO_EDGE: &[u8] = b"* #variable= 4 #constraint= 10
+1 x1 +1 x2 >= 1 ;
-1 x1 -1 x2 >= -1 ;
+1 x3 +1 x4 >= 1 ;
-1 x3 -1 x4 >= -1 ;
-1 x1 -1 x3 >= -1 ;
-1 x2 -1 x4 >= -1 ;
-1 x1 +1 x4 >= 0 ;
-1 x2 +1 x3 >= 0 ;
+1 x2 -1 x3 >= 0 ;
+1 x1 -1 x4 >= 0 ;
";

/// An edge one way into the same.
pub const ONE_WAY: &[u8] = b"* #variable= 4 #constraint= 10
+1 x1 +1 x2 >= 1 ;
-1 x1 -1 x2 >= -1 ;
+1 x3 +1 x4 >= 1 ;
-1 x3 -1 x4 >= -1 ;
-1 x1 -1 x3 >= -1 ;
-1 x2 -1 x4 >= -1 ;
-1 x1 +1 x4 >= 0 ;
-1 x2 >= 0 ;
-1 x3 >= 0 ;
+1 x1 -1 x4 >= 0 ;
";

/// A vertex with a loop into two, of which the second has one.
pub const LOOP_INTO_TWO: &[u8] = b"* #variable= 2 #constraint= 5
+1 x1 +1 x2 >= 1 ;
-1 x1 -1 x2 >= -1 ;
-1 x1 >= -1 ;
-1 x2 >= -1 ;
-1 x1 >= 0 ;
";

/// Three vertices into two: each goes to one, and each takes one at most.
pub const THREE_INTO_TWO: &[u8] = b"* #variable= 6 #constraint= 8
+1 x1 +1 x2 >= 1 ;
-1 x1 -1 x2 >= -1 ;
+1 x3 +1 x4 >= 1 ;
-1 x3 -1 x4 >= -1 ;
+1 x5 +1 x6 >= 1 ;
-1 x5 -1 x6 >= -1 ;
-1 x1 -1 x3 -1 x5 >= -1 ;
-1 x2 -1 x4 -1 x6 >= -1 ;
";

/// A triangle into a cycle of four.
pub const TRIANGLE_INTO_CYCLE: &[u8] = b"* #variable= 12 #constraint= 34\n\
+1 x1 +1 x2 +1 x3 +1 x4 >= 1 ;\n-1 x1 -1 x2 -1 x3 -1 x4 >= -1 ;\n\
+1 x5 +1 x6 +1 x7 +1 x8 >= 1 ;\n-1 x5 -1 x6 -1 x7 -1 x8 >= -1 ;\n\
+1 x9 +1 x10 +1 x11 +1 x12 >= 1 ;\n-1 x9 -1 x10 -1 x11 -1 x12 >= -1 ;\n\
-1 x1 -1 x5 -1 x9 >= -1 ;\n-1 x2 -1 x6 -1 x10 >= -1 ;\n-1 x3 -1 x7 -1 x11 >= -1 ;\n\
-1 x4 -1 x8 -1 x12 >= -1 ;\n-1 x1 +1 x6 +1 x8 >= 0 ;\n-1 x2 +1 x5 +1 x7 >= 0 ;\n\
-1 x3 +1 x6 +1 x8 >= 0 ;\n-1 x4 +1 x5 +1 x7 >= 0 ;\n-1 x1 +1 x10 +1 x12 >= 0 ;\n\
-1 x2 +1 x9 +1 x11 >= 0 ;\n-1 x3 +1 x10 +1 x12 >= 0 ;\n-1 x4 +1 x9 +1 x11 >= 0 ;\n\
+1 x2 +1 x4 -1 x5 >= 0 ;\n+1 x1 +1 x3 -1 x6 >= 0 ;\n+1 x2 +1 x4 -1 x7 >= 0 ;\n\
+1 x1 +1 x3 -1 x8 >= 0 ;\n-1 x5 +1 x10 +1 x12 >= 0 ;\n-1 x6 +1 x9 +1 x11 >= 0 ;\n\
-1 x7 +1 x10 +1 x12 >= 0 ;\n-1 x8 +1 x9 +1 x11 >= 0 ;\n+1 x2 +1 x4 -1 x9 >= 0 ;\n\
+1 x1 +1 x3 -1 x10 >= 0 ;\n+1 x2 +1 x4 -1 x11 >= 0 ;\n+1 x1 +1 x3 -1 x12 >= 0 ;\n\
+1 x6 +1 x8 -1 x9 >= 0 ;\n+1 x5 +1 x7 -1 x10 >= 0 ;\n+1 x6 +1 x8 -1 x11 >= 0 ;\n\
+1 x5 +1 x7 -1 x12 >= 0 ;\n";

/// A refutation of the triangle in the cycle: each image of the first vertex leaves its neighbours two values that have no edge between
/// them.
pub const NO_TRIANGLE: &[u8] = b"embedding proof 1
m 34
p 0.1 15 24 + 6 + ;
p 0.2 15 26 + 6 + ;
u 0.3 ~x1 ; 0.1 0.2 11 ;
p 0.4 16 23 + 6 + ;
p 0.5 16 25 + 6 + ;
u 0.6 ~x2 ; 0.4 0.5 12 ;
p 0.7 17 24 + 6 + ;
p 0.8 17 26 + 6 + ;
u 0.9 ~x3 ; 0.7 0.8 13 ;
p 0.10 18 23 + 6 + ;
p 0.11 18 25 + 6 + ;
u 0.12 ~x4 ; 0.10 0.11 14 ;
u 0.13 ; 0.3 0.6 0.9 0.12 1 ;
e 0.13
";

/// The same without hints.
pub const NO_TRIANGLE_WITHOUT_HINTS: &[u8] = b"embedding proof 2
m 34
p 0.1 15 24 + 6 + ;
p 0.2 15 26 + 6 + ;
u 0.3 ~x1 ;
p 0.4 16 23 + 6 + ;
p 0.5 16 25 + 6 + ;
u 0.6 ~x2 ;
p 0.7 17 24 + 6 + ;
p 0.8 17 26 + 6 + ;
u 0.9 ~x3 ;
p 0.10 18 23 + 6 + ;
p 0.11 18 25 + 6 + ;
u 0.12 ~x4 ;
u 0.13 ;
e 0.13
";
