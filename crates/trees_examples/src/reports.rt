// The reports of files of examples/, which are those of examples/reports/.
use crate::files::{
    BURGERS_SYSTEM, COUPLED_KPZ, EMPTY_RIGHT_SIDE, KPZ, KPZ_SYMMETRIC, PAM_2D, PAM_2D_QUADRATIC,
    PAM_3D, PHI4_2D, PHI4_2D_TWO_NOISES, PHI4_3D, PHI4_3D_MEAN_ZERO,
};
use crate::runs::report_of;
use std::test::Fail;

const BURGERS_SYSTEM_REPORT: &str = r#"report 1
rule u 8 8
  1
  xi
  u
  u'(0,1)
  v
  v'(0,1)
  u*u'(0,1)
  v*v'(0,1)
rule v 8 8
  1
  eta
  u
  u'(0,1)
  v
  v'(0,1)
  u*v'(0,1)
  u'(0,1)*v
trees 8
tree 1 [xi]
degree -3/2-k
symmetry 1
constant 0
differential u 1
differential v 0
tree 2 [eta]
degree -3/2-k
symmetry 1
constant 0
differential u 0
differential v 1
tree 3 [X(0,1)*xi]
degree -1/2-k
symmetry 1
constant 0
differential u 0
differential v 0
tree 4 [X(0,1)*eta]
degree -1/2-k
symmetry 1
constant 0
differential u 0
differential v 0
tree 5 [u[xi]*u'(0,1)[xi]]
degree -2*k
symmetry 1
constant -E[u[xi]*u'(0,1)[xi]]
differential u 1
differential v 0
tree 6 [u[xi]*v'(0,1)[eta]]
degree -2*k
symmetry 1
constant 0
differential u 0
differential v b
tree 7 [u'(0,1)[xi]*v[eta]]
degree -2*k
symmetry 1
constant 0
differential u 0
differential v c
tree 8 [v[eta]*v'(0,1)[eta]]
degree -2*k
symmetry 1
constant -E[v[eta]*v'(0,1)[eta]]
differential u a
differential v 0
equation u
  (xi+u*u'(0,1)+a*v*v'(0,1))/1
  +(-E[u[xi]*u'(0,1)[xi]])*(1)/1
  +(-E[v[eta]*v'(0,1)[eta]])*(a)/1
equation v
  (eta+b*u*v'(0,1)+c*u'(0,1)*v)/1
"#;

const COUPLED_KPZ_REPORT: &str = r#"report 1
rule u 6 6
  1
  xi
  u'(0,1)
  v'(0,1)
  u'(0,1)*u'(0,1)
  v'(0,1)*v'(0,1)
rule v 5 5
  1
  eta
  u'(0,1)
  v'(0,1)
  u'(0,1)*v'(0,1)
trees 46
tree 1 [xi]
degree -3/2-k
symmetry 1
constant 0
differential u 2
differential v 0
tree 2 [eta]
degree -3/2-k
symmetry 1
constant 0
differential u 0
differential v 2
tree 3 [u'(0,1)[xi]*u'(0,1)[xi]]
degree -1-2*k
symmetry 2
constant -E[u'(0,1)[xi]*u'(0,1)[xi]]
differential u 8
differential v 0
tree 4 [u'(0,1)[xi]*v'(0,1)[eta]]
degree -1-2*k
symmetry 1
constant 0
differential u 0
differential v 8*b
tree 5 [v'(0,1)[eta]*v'(0,1)[eta]]
degree -1-2*k
symmetry 2
constant -E[v'(0,1)[eta]*v'(0,1)[eta]]
differential u 16*a
differential v 0
tree 6 [u'(0,1)[xi]*u'(0,1)[u'(0,1)[xi]*u'(0,1)[xi]]]
degree -1/2-3*k
symmetry 2
constant 0
differential u 32
differential v 0
tree 7 [u'(0,1)[xi]*u'(0,1)[v'(0,1)[eta]*v'(0,1)[eta]]]
degree -1/2-3*k
symmetry 2
constant 0
differential u 64*a
differential v 0
tree 8 [u'(0,1)[xi]*v'(0,1)[u'(0,1)[xi]*v'(0,1)[eta]]]
degree -1/2-3*k
symmetry 1
constant 0
differential u 0
differential v 32*b^2
tree 9 [u'(0,1)[u'(0,1)[xi]*u'(0,1)[xi]]*v'(0,1)[eta]]
degree -1/2-3*k
symmetry 2
constant 0
differential u 0
differential v 32*b
tree 10 [u'(0,1)[v'(0,1)[eta]*v'(0,1)[eta]]*v'(0,1)[eta]]
degree -1/2-3*k
symmetry 2
constant 0
differential u 0
differential v 64*a*b
tree 11 [v'(0,1)[eta]*v'(0,1)[u'(0,1)[xi]*v'(0,1)[eta]]]
degree -1/2-3*k
symmetry 1
constant 0
differential u 64*a*b
differential v 0
tree 12 [X(0,1)*xi]
degree -1/2-k
symmetry 1
constant 0
differential u 0
differential v 0
tree 13 [X(0,1)*eta]
degree -1/2-k
symmetry 1
constant 0
differential u 0
differential v 0
tree 14 [u'(0,1)[xi]*u'(0,1)[u'(0,1)[xi]*u'(0,1)[u'(0,1)[xi]*u'(0,1)[xi]]]]
degree -4*k
symmetry 2
constant -E[u'(0,1)[xi]*u'(0,1)[u'(0,1)[xi]*u'(0,1)[u'(0,1)[xi]*u'(0,1)[xi]]]]+E[u'(0,1)[xi]*u'(0,1)[xi]]*E[u'(0,1)[xi]*u'(0,1)[u'(0,1)[]*u'(0,1)[xi]]]+2*E[u'(0,1)[xi]*u'(0,1)[u'(0,1)[xi]]]^2+E[u'(0,1)[xi]*u'(0,1)[u'(0,1)[xi]]]*E[u'(0,1)[u'(0,1)[xi]*u'(0,1)[xi]]]-E[u'(0,1)[]]*E[u'(0,1)[xi]*u'(0,1)[xi]]*E[u'(0,1)[xi]*u'(0,1)[u'(0,1)[xi]]]
differential u 128
differential v 0
tree 15 [u'(0,1)[xi]*u'(0,1)[u'(0,1)[xi]*u'(0,1)[v'(0,1)[eta]*v'(0,1)[eta]]]]
degree -4*k
symmetry 2
constant -E[u'(0,1)[xi]*u'(0,1)[u'(0,1)[xi]*u'(0,1)[v'(0,1)[eta]*v'(0,1)[eta]]]]+E[v'(0,1)[eta]*v'(0,1)[eta]]*E[u'(0,1)[xi]*u'(0,1)[u'(0,1)[]*u'(0,1)[xi]]]+E[u'(0,1)[xi]*u'(0,1)[u'(0,1)[xi]]]*E[u'(0,1)[v'(0,1)[eta]*v'(0,1)[eta]]]-E[u'(0,1)[]]*E[v'(0,1)[eta]*v'(0,1)[eta]]*E[u'(0,1)[xi]*u'(0,1)[u'(0,1)[xi]]]
differential u 256*a
differential v 0
tree 16 [u'(0,1)[xi]*u'(0,1)[v'(0,1)[eta]*v'(0,1)[u'(0,1)[xi]*v'(0,1)[eta]]]]
degree -4*k
symmetry 1
constant -E[u'(0,1)[xi]*u'(0,1)[v'(0,1)[eta]*v'(0,1)[u'(0,1)[xi]*v'(0,1)[eta]]]]+E[u'(0,1)[xi]*u'(0,1)[u'(0,1)[xi]]]*E[v'(0,1)[eta]*v'(0,1)[v'(0,1)[eta]]]
differential u 256*a*b
differential v 0
tree 17 [u'(0,1)[xi]*v'(0,1)[u'(0,1)[xi]*v'(0,1)[u'(0,1)[xi]*v'(0,1)[eta]]]]
degree -4*k
symmetry 1
constant 0
differential u 0
differential v 128*b^3
tree 18 [u'(0,1)[xi]*v'(0,1)[u'(0,1)[u'(0,1)[xi]*u'(0,1)[xi]]*v'(0,1)[eta]]]
degree -4*k
symmetry 2
constant 0
differential u 0
differential v 128*b^2
tree 19 [u'(0,1)[xi]*v'(0,1)[u'(0,1)[v'(0,1)[eta]*v'(0,1)[eta]]*v'(0,1)[eta]]]
degree -4*k
symmetry 2
constant 0
differential u 0
differential v 256*a*b^2
tree 20 [u'(0,1)[u'(0,1)[xi]*u'(0,1)[xi]]*u'(0,1)[u'(0,1)[xi]*u'(0,1)[xi]]]
degree -4*k
symmetry 8
constant -E[u'(0,1)[u'(0,1)[xi]*u'(0,1)[xi]]*u'(0,1)[u'(0,1)[xi]*u'(0,1)[xi]]]+2*E[u'(0,1)[xi]*u'(0,1)[xi]]*E[u'(0,1)[]*u'(0,1)[u'(0,1)[xi]*u'(0,1)[xi]]]-E[u'(0,1)[]*u'(0,1)[]]*E[u'(0,1)[xi]*u'(0,1)[xi]]^2
differential u 128
differential v 0
tree 21 [u'(0,1)[u'(0,1)[xi]*u'(0,1)[xi]]*u'(0,1)[v'(0,1)[eta]*v'(0,1)[eta]]]
degree -4*k
symmetry 4
constant -E[u'(0,1)[u'(0,1)[xi]*u'(0,1)[xi]]*u'(0,1)[v'(0,1)[eta]*v'(0,1)[eta]]]+E[u'(0,1)[xi]*u'(0,1)[xi]]*E[u'(0,1)[]*u'(0,1)[v'(0,1)[eta]*v'(0,1)[eta]]]+E[v'(0,1)[eta]*v'(0,1)[eta]]*E[u'(0,1)[]*u'(0,1)[u'(0,1)[xi]*u'(0,1)[xi]]]-E[u'(0,1)[]*u'(0,1)[]]*E[u'(0,1)[xi]*u'(0,1)[xi]]*E[v'(0,1)[eta]*v'(0,1)[eta]]
differential u 256*a
differential v 0
tree 22 [u'(0,1)[u'(0,1)[xi]*u'(0,1)[xi]]*v'(0,1)[u'(0,1)[xi]*v'(0,1)[eta]]]
degree -4*k
symmetry 2
constant 0
differential u 0
differential v 128*b^2
tree 23 [u'(0,1)[v'(0,1)[eta]*v'(0,1)[eta]]*u'(0,1)[v'(0,1)[eta]*v'(0,1)[eta]]]
degree -4*k
symmetry 8
constant -E[u'(0,1)[v'(0,1)[eta]*v'(0,1)[eta]]*u'(0,1)[v'(0,1)[eta]*v'(0,1)[eta]]]+2*E[v'(0,1)[eta]*v'(0,1)[eta]]*E[u'(0,1)[]*u'(0,1)[v'(0,1)[eta]*v'(0,1)[eta]]]-E[u'(0,1)[]*u'(0,1)[]]*E[v'(0,1)[eta]*v'(0,1)[eta]]^2
differential u 512*a^2
differential v 0
tree 24 [u'(0,1)[v'(0,1)[eta]*v'(0,1)[eta]]*v'(0,1)[u'(0,1)[xi]*v'(0,1)[eta]]]
degree -4*k
symmetry 2
constant 0
differential u 0
differential v 256*a*b^2
tree 25 [u'(0,1)[u'(0,1)[xi]*u'(0,1)[u'(0,1)[xi]*u'(0,1)[xi]]]*v'(0,1)[eta]]
degree -4*k
symmetry 2
constant 0
differential u 0
differential v 128*b
tree 26 [u'(0,1)[u'(0,1)[xi]*u'(0,1)[v'(0,1)[eta]*v'(0,1)[eta]]]*v'(0,1)[eta]]
degree -4*k
symmetry 2
constant 0
differential u 0
differential v 256*a*b
tree 27 [u'(0,1)[v'(0,1)[eta]*v'(0,1)[u'(0,1)[xi]*v'(0,1)[eta]]]*v'(0,1)[eta]]
degree -4*k
symmetry 1
constant 0
differential u 0
differential v 256*a*b^2
tree 28 [v'(0,1)[eta]*v'(0,1)[u'(0,1)[xi]*v'(0,1)[u'(0,1)[xi]*v'(0,1)[eta]]]]
degree -4*k
symmetry 1
constant -E[v'(0,1)[eta]*v'(0,1)[u'(0,1)[xi]*v'(0,1)[u'(0,1)[xi]*v'(0,1)[eta]]]]+E[u'(0,1)[xi]*v'(0,1)[u'(0,1)[xi]]]*E[v'(0,1)[eta]*v'(0,1)[v'(0,1)[eta]]]
differential u 256*a*b^2
differential v 0
tree 29 [v'(0,1)[eta]*v'(0,1)[u'(0,1)[u'(0,1)[xi]*u'(0,1)[xi]]*v'(0,1)[eta]]]
degree -4*k
symmetry 2
constant -E[v'(0,1)[eta]*v'(0,1)[u'(0,1)[u'(0,1)[xi]*u'(0,1)[xi]]*v'(0,1)[eta]]]+E[u'(0,1)[xi]*u'(0,1)[xi]]*E[v'(0,1)[eta]*v'(0,1)[u'(0,1)[]*v'(0,1)[eta]]]+E[u'(0,1)[u'(0,1)[xi]*u'(0,1)[xi]]]*E[v'(0,1)[eta]*v'(0,1)[v'(0,1)[eta]]]-E[u'(0,1)[]]*E[u'(0,1)[xi]*u'(0,1)[xi]]*E[v'(0,1)[eta]*v'(0,1)[v'(0,1)[eta]]]
differential u 256*a*b
differential v 0
tree 30 [v'(0,1)[eta]*v'(0,1)[u'(0,1)[v'(0,1)[eta]*v'(0,1)[eta]]*v'(0,1)[eta]]]
degree -4*k
symmetry 2
constant -E[v'(0,1)[eta]*v'(0,1)[u'(0,1)[v'(0,1)[eta]*v'(0,1)[eta]]*v'(0,1)[eta]]]+E[v'(0,1)[eta]*v'(0,1)[eta]]*E[v'(0,1)[eta]*v'(0,1)[u'(0,1)[]*v'(0,1)[eta]]]+2*E[u'(0,1)[v'(0,1)[eta]]*v'(0,1)[eta]]*E[v'(0,1)[eta]*v'(0,1)[v'(0,1)[eta]]]+E[u'(0,1)[v'(0,1)[eta]*v'(0,1)[eta]]]*E[v'(0,1)[eta]*v'(0,1)[v'(0,1)[eta]]]-E[u'(0,1)[]]*E[v'(0,1)[eta]*v'(0,1)[eta]]*E[v'(0,1)[eta]*v'(0,1)[v'(0,1)[eta]]]
differential u 512*a^2*b
differential v 0
tree 31 [v'(0,1)[u'(0,1)[xi]*v'(0,1)[eta]]*v'(0,1)[u'(0,1)[xi]*v'(0,1)[eta]]]
degree -4*k
symmetry 2
constant -E[v'(0,1)[u'(0,1)[xi]*v'(0,1)[eta]]*v'(0,1)[u'(0,1)[xi]*v'(0,1)[eta]]]
differential u 256*a*b^2
differential v 0
tree 32 [u'(0,1)[xi]*u'(0,1)[X(0,1)*xi]]
degree -2*k
symmetry 1
constant -E[u'(0,1)[xi]*u'(0,1)[X(0,1)*xi]]
differential u 0
differential v 0
tree 33 [u'(0,1)[xi]*v'(0,1)[X(0,1)*eta]]
degree -2*k
symmetry 1
constant 0
differential u 0
differential v 0
tree 34 [u'(0,1)[X(0,1)*xi]*v'(0,1)[eta]]
degree -2*k
symmetry 1
constant 0
differential u 0
differential v 0
tree 35 [v'(0,1)[eta]*v'(0,1)[X(0,1)*eta]]
degree -2*k
symmetry 1
constant -E[v'(0,1)[eta]*v'(0,1)[X(0,1)*eta]]
differential u 0
differential v 0
tree 36 [X(0,1)*u'(0,1)[xi]*u'(0,1)[xi]]
degree -2*k
symmetry 2
constant 0
differential u 0
differential v 0
tree 37 [X(0,1)*u'(0,1)[xi]*v'(0,1)[eta]]
degree -2*k
symmetry 1
constant 0
differential u 0
differential v 0
tree 38 [X(0,1)*v'(0,1)[eta]*v'(0,1)[eta]]
degree -2*k
symmetry 2
constant 0
differential u 0
differential v 0
tree 39 [u'(0,1)[xi]*u'(0,1)[u'(0,1)[xi]]]
degree -2*k
symmetry 1
constant -E[u'(0,1)[xi]*u'(0,1)[u'(0,1)[xi]]]
differential u 16*u'(0,1)
differential v 0
tree 40 [u'(0,1)[xi]*u'(0,1)[v'(0,1)[eta]]]
degree -2*k
symmetry 1
constant 0
differential u 32*a*v'(0,1)
differential v 0
tree 41 [u'(0,1)[xi]*v'(0,1)[u'(0,1)[xi]]]
degree -2*k
symmetry 1
constant -E[u'(0,1)[xi]*v'(0,1)[u'(0,1)[xi]]]
differential u 0
differential v 16*b^2*v'(0,1)
tree 42 [u'(0,1)[xi]*v'(0,1)[v'(0,1)[eta]]]
degree -2*k
symmetry 1
constant 0
differential u 0
differential v 16*b^2*u'(0,1)
tree 43 [u'(0,1)[u'(0,1)[xi]]*v'(0,1)[eta]]
degree -2*k
symmetry 1
constant 0
differential u 0
differential v 16*b*u'(0,1)
tree 44 [u'(0,1)[v'(0,1)[eta]]*v'(0,1)[eta]]
degree -2*k
symmetry 1
constant -E[u'(0,1)[v'(0,1)[eta]]*v'(0,1)[eta]]
differential u 0
differential v 32*a*b*v'(0,1)
tree 45 [v'(0,1)[eta]*v'(0,1)[u'(0,1)[xi]]]
degree -2*k
symmetry 1
constant 0
differential u 32*a*b*v'(0,1)
differential v 0
tree 46 [v'(0,1)[eta]*v'(0,1)[v'(0,1)[eta]]]
degree -2*k
symmetry 1
constant -E[v'(0,1)[eta]*v'(0,1)[v'(0,1)[eta]]]
differential u 32*a*b*u'(0,1)
differential v 0
equation u
  (2*xi+u'(0,1)^2+2*a*v'(0,1)^2)/2
  +(-E[u'(0,1)[xi]*u'(0,1)[xi]])*(8)/16
  +(-E[v'(0,1)[eta]*v'(0,1)[eta]])*(16*a)/16
  +(-E[u'(0,1)[xi]*u'(0,1)[u'(0,1)[xi]*u'(0,1)[u'(0,1)[xi]*u'(0,1)[xi]]]]+E[u'(0,1)[xi]*u'(0,1)[xi]]*E[u'(0,1)[xi]*u'(0,1)[u'(0,1)[]*u'(0,1)[xi]]]+2*E[u'(0,1)[xi]*u'(0,1)[u'(0,1)[xi]]]^2+E[u'(0,1)[xi]*u'(0,1)[u'(0,1)[xi]]]*E[u'(0,1)[u'(0,1)[xi]*u'(0,1)[xi]]]-E[u'(0,1)[]]*E[u'(0,1)[xi]*u'(0,1)[xi]]*E[u'(0,1)[xi]*u'(0,1)[u'(0,1)[xi]]])*(128)/256
  +(-E[u'(0,1)[xi]*u'(0,1)[u'(0,1)[xi]*u'(0,1)[v'(0,1)[eta]*v'(0,1)[eta]]]]+E[v'(0,1)[eta]*v'(0,1)[eta]]*E[u'(0,1)[xi]*u'(0,1)[u'(0,1)[]*u'(0,1)[xi]]]+E[u'(0,1)[xi]*u'(0,1)[u'(0,1)[xi]]]*E[u'(0,1)[v'(0,1)[eta]*v'(0,1)[eta]]]-E[u'(0,1)[]]*E[v'(0,1)[eta]*v'(0,1)[eta]]*E[u'(0,1)[xi]*u'(0,1)[u'(0,1)[xi]]])*(256*a)/256
  +(-E[u'(0,1)[xi]*u'(0,1)[v'(0,1)[eta]*v'(0,1)[u'(0,1)[xi]*v'(0,1)[eta]]]]+E[u'(0,1)[xi]*u'(0,1)[u'(0,1)[xi]]]*E[v'(0,1)[eta]*v'(0,1)[v'(0,1)[eta]]])*(256*a*b)/128
  +(-E[u'(0,1)[u'(0,1)[xi]*u'(0,1)[xi]]*u'(0,1)[u'(0,1)[xi]*u'(0,1)[xi]]]+2*E[u'(0,1)[xi]*u'(0,1)[xi]]*E[u'(0,1)[]*u'(0,1)[u'(0,1)[xi]*u'(0,1)[xi]]]-E[u'(0,1)[]*u'(0,1)[]]*E[u'(0,1)[xi]*u'(0,1)[xi]]^2)*(128)/1024
  +(-E[u'(0,1)[u'(0,1)[xi]*u'(0,1)[xi]]*u'(0,1)[v'(0,1)[eta]*v'(0,1)[eta]]]+E[u'(0,1)[xi]*u'(0,1)[xi]]*E[u'(0,1)[]*u'(0,1)[v'(0,1)[eta]*v'(0,1)[eta]]]+E[v'(0,1)[eta]*v'(0,1)[eta]]*E[u'(0,1)[]*u'(0,1)[u'(0,1)[xi]*u'(0,1)[xi]]]-E[u'(0,1)[]*u'(0,1)[]]*E[u'(0,1)[xi]*u'(0,1)[xi]]*E[v'(0,1)[eta]*v'(0,1)[eta]])*(256*a)/512
  +(-E[u'(0,1)[v'(0,1)[eta]*v'(0,1)[eta]]*u'(0,1)[v'(0,1)[eta]*v'(0,1)[eta]]]+2*E[v'(0,1)[eta]*v'(0,1)[eta]]*E[u'(0,1)[]*u'(0,1)[v'(0,1)[eta]*v'(0,1)[eta]]]-E[u'(0,1)[]*u'(0,1)[]]*E[v'(0,1)[eta]*v'(0,1)[eta]]^2)*(512*a^2)/1024
  +(-E[v'(0,1)[eta]*v'(0,1)[u'(0,1)[xi]*v'(0,1)[u'(0,1)[xi]*v'(0,1)[eta]]]]+E[u'(0,1)[xi]*v'(0,1)[u'(0,1)[xi]]]*E[v'(0,1)[eta]*v'(0,1)[v'(0,1)[eta]]])*(256*a*b^2)/128
  +(-E[v'(0,1)[eta]*v'(0,1)[u'(0,1)[u'(0,1)[xi]*u'(0,1)[xi]]*v'(0,1)[eta]]]+E[u'(0,1)[xi]*u'(0,1)[xi]]*E[v'(0,1)[eta]*v'(0,1)[u'(0,1)[]*v'(0,1)[eta]]]+E[u'(0,1)[u'(0,1)[xi]*u'(0,1)[xi]]]*E[v'(0,1)[eta]*v'(0,1)[v'(0,1)[eta]]]-E[u'(0,1)[]]*E[u'(0,1)[xi]*u'(0,1)[xi]]*E[v'(0,1)[eta]*v'(0,1)[v'(0,1)[eta]]])*(256*a*b)/256
  +(-E[v'(0,1)[eta]*v'(0,1)[u'(0,1)[v'(0,1)[eta]*v'(0,1)[eta]]*v'(0,1)[eta]]]+E[v'(0,1)[eta]*v'(0,1)[eta]]*E[v'(0,1)[eta]*v'(0,1)[u'(0,1)[]*v'(0,1)[eta]]]+2*E[u'(0,1)[v'(0,1)[eta]]*v'(0,1)[eta]]*E[v'(0,1)[eta]*v'(0,1)[v'(0,1)[eta]]]+E[u'(0,1)[v'(0,1)[eta]*v'(0,1)[eta]]]*E[v'(0,1)[eta]*v'(0,1)[v'(0,1)[eta]]]-E[u'(0,1)[]]*E[v'(0,1)[eta]*v'(0,1)[eta]]*E[v'(0,1)[eta]*v'(0,1)[v'(0,1)[eta]]])*(512*a^2*b)/256
  +(-E[v'(0,1)[u'(0,1)[xi]*v'(0,1)[eta]]*v'(0,1)[u'(0,1)[xi]*v'(0,1)[eta]]])*(256*a*b^2)/256
  +(-E[u'(0,1)[xi]*u'(0,1)[u'(0,1)[xi]]])*(16*u'(0,1))/16
  +(-E[v'(0,1)[eta]*v'(0,1)[v'(0,1)[eta]]])*(32*a*b*u'(0,1))/16
equation v
  (2*eta+2*b*u'(0,1)*v'(0,1))/2
  +(-E[u'(0,1)[xi]*v'(0,1)[u'(0,1)[xi]]])*(16*b^2*v'(0,1))/16
  +(-E[u'(0,1)[v'(0,1)[eta]]*v'(0,1)[eta]])*(32*a*b*v'(0,1))/16
"#;

const EMPTY_RIGHT_SIDE_REPORT: &str = r#"report 1
rule u 1 1
  1
trees 0
equation u
  (0)/1
"#;

const KPZ_REPORT: &str = r#"report 1
rule u 4 4
  1
  xi
  u'(0,1)
  u'(0,1)*u'(0,1)
trees 9
tree 1 [xi]
degree -3/2-k
symmetry 1
constant 0
differential u 1
tree 2 [u'(0,1)[xi]*u'(0,1)[xi]]
degree -1-2*k
symmetry 2
constant -E[u'(0,1)[xi]*u'(0,1)[xi]]
differential u 2
tree 3 [u'(0,1)[xi]*u'(0,1)[u'(0,1)[xi]*u'(0,1)[xi]]]
degree -1/2-3*k
symmetry 2
constant 0
differential u 4
tree 4 [X(0,1)*xi]
degree -1/2-k
symmetry 1
constant 0
differential u 0
tree 5 [u'(0,1)[xi]*u'(0,1)[u'(0,1)[xi]*u'(0,1)[u'(0,1)[xi]*u'(0,1)[xi]]]]
degree -4*k
symmetry 2
constant -E[u'(0,1)[xi]*u'(0,1)[u'(0,1)[xi]*u'(0,1)[u'(0,1)[xi]*u'(0,1)[xi]]]]+E[u'(0,1)[xi]*u'(0,1)[xi]]*E[u'(0,1)[xi]*u'(0,1)[u'(0,1)[]*u'(0,1)[xi]]]+2*E[u'(0,1)[xi]*u'(0,1)[u'(0,1)[xi]]]^2+E[u'(0,1)[xi]*u'(0,1)[u'(0,1)[xi]]]*E[u'(0,1)[u'(0,1)[xi]*u'(0,1)[xi]]]-E[u'(0,1)[]]*E[u'(0,1)[xi]*u'(0,1)[xi]]*E[u'(0,1)[xi]*u'(0,1)[u'(0,1)[xi]]]
differential u 8
tree 6 [u'(0,1)[u'(0,1)[xi]*u'(0,1)[xi]]*u'(0,1)[u'(0,1)[xi]*u'(0,1)[xi]]]
degree -4*k
symmetry 8
constant -E[u'(0,1)[u'(0,1)[xi]*u'(0,1)[xi]]*u'(0,1)[u'(0,1)[xi]*u'(0,1)[xi]]]+2*E[u'(0,1)[xi]*u'(0,1)[xi]]*E[u'(0,1)[]*u'(0,1)[u'(0,1)[xi]*u'(0,1)[xi]]]-E[u'(0,1)[]*u'(0,1)[]]*E[u'(0,1)[xi]*u'(0,1)[xi]]^2
differential u 8
tree 7 [u'(0,1)[xi]*u'(0,1)[X(0,1)*xi]]
degree -2*k
symmetry 1
constant -E[u'(0,1)[xi]*u'(0,1)[X(0,1)*xi]]
differential u 0
tree 8 [X(0,1)*u'(0,1)[xi]*u'(0,1)[xi]]
degree -2*k
symmetry 2
constant 0
differential u 0
tree 9 [u'(0,1)[xi]*u'(0,1)[u'(0,1)[xi]]]
degree -2*k
symmetry 1
constant -E[u'(0,1)[xi]*u'(0,1)[u'(0,1)[xi]]]
differential u 4*u'(0,1)
equation u
  (xi+u'(0,1)^2)/1
  +(-E[u'(0,1)[xi]*u'(0,1)[xi]])*(2)/2
  +(-E[u'(0,1)[xi]*u'(0,1)[u'(0,1)[xi]*u'(0,1)[u'(0,1)[xi]*u'(0,1)[xi]]]]+E[u'(0,1)[xi]*u'(0,1)[xi]]*E[u'(0,1)[xi]*u'(0,1)[u'(0,1)[]*u'(0,1)[xi]]]+2*E[u'(0,1)[xi]*u'(0,1)[u'(0,1)[xi]]]^2+E[u'(0,1)[xi]*u'(0,1)[u'(0,1)[xi]]]*E[u'(0,1)[u'(0,1)[xi]*u'(0,1)[xi]]]-E[u'(0,1)[]]*E[u'(0,1)[xi]*u'(0,1)[xi]]*E[u'(0,1)[xi]*u'(0,1)[u'(0,1)[xi]]])*(8)/2
  +(-E[u'(0,1)[u'(0,1)[xi]*u'(0,1)[xi]]*u'(0,1)[u'(0,1)[xi]*u'(0,1)[xi]]]+2*E[u'(0,1)[xi]*u'(0,1)[xi]]*E[u'(0,1)[]*u'(0,1)[u'(0,1)[xi]*u'(0,1)[xi]]]-E[u'(0,1)[]*u'(0,1)[]]*E[u'(0,1)[xi]*u'(0,1)[xi]]^2)*(8)/8
  +(-E[u'(0,1)[xi]*u'(0,1)[u'(0,1)[xi]]])*(4*u'(0,1))/1
"#;

const KPZ_SYMMETRIC_REPORT: &str = r#"report 1
rule u 4 4
  1
  xi
  u'(0,1)
  u'(0,1)*u'(0,1)
trees 9
tree 1 [xi]
degree -3/2-k
symmetry 1
constant 0
differential u 1
tree 2 [u'(0,1)[xi]*u'(0,1)[xi]]
degree -1-2*k
symmetry 2
constant -E[u'(0,1)[xi]*u'(0,1)[xi]]
differential u 2
tree 3 [u'(0,1)[xi]*u'(0,1)[u'(0,1)[xi]*u'(0,1)[xi]]]
degree -1/2-3*k
symmetry 2
constant 0
differential u 4
tree 4 [X(0,1)*xi]
degree -1/2-k
symmetry 1
constant 0
differential u 0
tree 5 [u'(0,1)[xi]*u'(0,1)[u'(0,1)[xi]*u'(0,1)[u'(0,1)[xi]*u'(0,1)[xi]]]]
degree -4*k
symmetry 2
constant -E[u'(0,1)[xi]*u'(0,1)[u'(0,1)[xi]*u'(0,1)[u'(0,1)[xi]*u'(0,1)[xi]]]]+E[u'(0,1)[xi]*u'(0,1)[xi]]*E[u'(0,1)[xi]*u'(0,1)[u'(0,1)[]*u'(0,1)[xi]]]
differential u 8
tree 6 [u'(0,1)[u'(0,1)[xi]*u'(0,1)[xi]]*u'(0,1)[u'(0,1)[xi]*u'(0,1)[xi]]]
degree -4*k
symmetry 8
constant -E[u'(0,1)[u'(0,1)[xi]*u'(0,1)[xi]]*u'(0,1)[u'(0,1)[xi]*u'(0,1)[xi]]]+2*E[u'(0,1)[xi]*u'(0,1)[xi]]*E[u'(0,1)[]*u'(0,1)[u'(0,1)[xi]*u'(0,1)[xi]]]-E[u'(0,1)[]*u'(0,1)[]]*E[u'(0,1)[xi]*u'(0,1)[xi]]^2
differential u 8
tree 7 [u'(0,1)[xi]*u'(0,1)[X(0,1)*xi]]
degree -2*k
symmetry 1
constant 0
differential u 0
tree 8 [X(0,1)*u'(0,1)[xi]*u'(0,1)[xi]]
degree -2*k
symmetry 2
constant 0
differential u 0
tree 9 [u'(0,1)[xi]*u'(0,1)[u'(0,1)[xi]]]
degree -2*k
symmetry 1
constant 0
differential u 4*u'(0,1)
equation u
  (xi+u'(0,1)^2)/1
  +(-E[u'(0,1)[xi]*u'(0,1)[xi]])*(2)/2
  +(-E[u'(0,1)[xi]*u'(0,1)[u'(0,1)[xi]*u'(0,1)[u'(0,1)[xi]*u'(0,1)[xi]]]]+E[u'(0,1)[xi]*u'(0,1)[xi]]*E[u'(0,1)[xi]*u'(0,1)[u'(0,1)[]*u'(0,1)[xi]]])*(8)/2
  +(-E[u'(0,1)[u'(0,1)[xi]*u'(0,1)[xi]]*u'(0,1)[u'(0,1)[xi]*u'(0,1)[xi]]]+2*E[u'(0,1)[xi]*u'(0,1)[xi]]*E[u'(0,1)[]*u'(0,1)[u'(0,1)[xi]*u'(0,1)[xi]]]-E[u'(0,1)[]*u'(0,1)[]]*E[u'(0,1)[xi]*u'(0,1)[xi]]^2)*(8)/8
"#;

const PAM_2D_REPORT: &str = r#"report 1
rule u 4 6
  1
  xi
  u
  u'(0,0,1)
  u'(0,1,0)
  xi*u
trees 4
tree 1 [xi]
degree -1-k
symmetry 1
constant 0
differential u u
tree 2 [xi*u[xi]]
degree -2*k
symmetry 1
constant -E[xi*u[xi]]
differential u u
tree 3 [X(0,0,1)*xi]
degree -k
symmetry 1
constant 0
differential u u'(0,0,1)
tree 4 [X(0,1,0)*xi]
degree -k
symmetry 1
constant 0
differential u u'(0,1,0)
equation u
  (u*xi)/1
  +(-E[xi*u[xi]])*(u)/1
"#;

const PAM_2D_QUADRATIC_REPORT: &str = r#"report 1
rule u 6 11
  1
  xi
  u
  u'(0,0,1)
  u'(0,1,0)
  xi*u
  u*u
  u*u'(0,0,1)
  u*u'(0,1,0)
  xi*u*u
  u*u*u
trees 4
tree 1 [xi]
degree -1-k
symmetry 1
constant 0
differential u u^2
tree 2 [xi*u[xi]]
degree -2*k
symmetry 1
constant -E[xi*u[xi]]
differential u 2*u^3
tree 3 [X(0,0,1)*xi]
degree -k
symmetry 1
constant 0
differential u 2*u*u'(0,0,1)
tree 4 [X(0,1,0)*xi]
degree -k
symmetry 1
constant 0
differential u 2*u*u'(0,1,0)
equation u
  (u^2*xi)/1
  +(-E[xi*u[xi]])*(2*u^3)/1
"#;

const PAM_3D_REPORT: &str = r#"report 1
rule u 4 7
  1
  xi
  u
  u'(0,0,0,1)
  u'(0,0,1,0)
  u'(0,1,0,0)
  xi*u
trees 16
tree 1 [xi]
degree -3/2-k
symmetry 1
constant 0
differential u u
tree 2 [xi*u[xi]]
degree -1-2*k
symmetry 1
constant -E[xi*u[xi]]
differential u u
tree 3 [xi*u[xi*u[xi]]]
degree -1/2-3*k
symmetry 1
constant 0
differential u u
tree 4 [X(0,0,0,1)*xi]
degree -1/2-k
symmetry 1
constant 0
differential u u'(0,0,0,1)
tree 5 [X(0,0,1,0)*xi]
degree -1/2-k
symmetry 1
constant 0
differential u u'(0,0,1,0)
tree 6 [X(0,1,0,0)*xi]
degree -1/2-k
symmetry 1
constant 0
differential u u'(0,1,0,0)
tree 7 [xi*u[xi*u[xi*u[xi]]]]
degree -4*k
symmetry 1
constant -E[xi*u[xi*u[xi*u[xi]]]]+E[xi*u[xi]]*E[xi*u[xi*u[]]]+E[xi*u[xi]]*E[xi*u[u[xi]]]+E[xi*u[xi]]*E[u[xi*u[xi]]]+E[xi*u[X(0,0,0,1)*xi]]*E[xi*u[u'(0,0,0,1)[xi]]]+E[xi*u[X(0,0,0,1)*xi]]*E[u'(0,0,0,1)[xi*u[xi]]]+E[xi*u[X(0,0,1,0)*xi]]*E[xi*u[u'(0,0,1,0)[xi]]]+E[xi*u[X(0,0,1,0)*xi]]*E[u'(0,0,1,0)[xi*u[xi]]]+E[xi*u[X(0,1,0,0)*xi]]*E[xi*u[u'(0,1,0,0)[xi]]]+E[xi*u[X(0,1,0,0)*xi]]*E[u'(0,1,0,0)[xi*u[xi]]]-E[u[]]*E[xi*u[xi]]^2-E[u'(0,0,0,1)[]]*E[xi*u[xi]]*E[xi*u[X(0,0,0,1)*xi]]-E[u'(0,0,1,0)[]]*E[xi*u[xi]]*E[xi*u[X(0,0,1,0)*xi]]-E[u'(0,1,0,0)[]]*E[xi*u[xi]]*E[xi*u[X(0,1,0,0)*xi]]
differential u u
tree 8 [xi*u[X(0,0,0,1)*xi]]
degree -2*k
symmetry 1
constant -E[xi*u[X(0,0,0,1)*xi]]
differential u u'(0,0,0,1)
tree 9 [xi*u[X(0,0,1,0)*xi]]
degree -2*k
symmetry 1
constant -E[xi*u[X(0,0,1,0)*xi]]
differential u u'(0,0,1,0)
tree 10 [xi*u[X(0,1,0,0)*xi]]
degree -2*k
symmetry 1
constant -E[xi*u[X(0,1,0,0)*xi]]
differential u u'(0,1,0,0)
tree 11 [X(0,0,0,1)*xi*u[xi]]
degree -2*k
symmetry 1
constant 0
differential u 0
tree 12 [X(0,0,1,0)*xi*u[xi]]
degree -2*k
symmetry 1
constant 0
differential u 0
tree 13 [X(0,1,0,0)*xi*u[xi]]
degree -2*k
symmetry 1
constant 0
differential u 0
tree 14 [xi*u[u'(0,0,0,1)[xi]]]
degree -2*k
symmetry 1
constant -E[xi*u[u'(0,0,0,1)[xi]]]
differential u 0
tree 15 [xi*u[u'(0,0,1,0)[xi]]]
degree -2*k
symmetry 1
constant -E[xi*u[u'(0,0,1,0)[xi]]]
differential u 0
tree 16 [xi*u[u'(0,1,0,0)[xi]]]
degree -2*k
symmetry 1
constant -E[xi*u[u'(0,1,0,0)[xi]]]
differential u 0
equation u
  (u*xi)/1
  +(-E[xi*u[xi]])*(u)/1
  +(-E[xi*u[xi*u[xi*u[xi]]]]+E[xi*u[xi]]*E[xi*u[xi*u[]]]+E[xi*u[xi]]*E[xi*u[u[xi]]]+E[xi*u[xi]]*E[u[xi*u[xi]]]+E[xi*u[X(0,0,0,1)*xi]]*E[xi*u[u'(0,0,0,1)[xi]]]+E[xi*u[X(0,0,0,1)*xi]]*E[u'(0,0,0,1)[xi*u[xi]]]+E[xi*u[X(0,0,1,0)*xi]]*E[xi*u[u'(0,0,1,0)[xi]]]+E[xi*u[X(0,0,1,0)*xi]]*E[u'(0,0,1,0)[xi*u[xi]]]+E[xi*u[X(0,1,0,0)*xi]]*E[xi*u[u'(0,1,0,0)[xi]]]+E[xi*u[X(0,1,0,0)*xi]]*E[u'(0,1,0,0)[xi*u[xi]]]-E[u[]]*E[xi*u[xi]]^2-E[u'(0,0,0,1)[]]*E[xi*u[xi]]*E[xi*u[X(0,0,0,1)*xi]]-E[u'(0,0,1,0)[]]*E[xi*u[xi]]*E[xi*u[X(0,0,1,0)*xi]]-E[u'(0,1,0,0)[]]*E[xi*u[xi]]*E[xi*u[X(0,1,0,0)*xi]])*(u)/1
  +(-E[xi*u[X(0,0,0,1)*xi]])*(u'(0,0,0,1))/1
  +(-E[xi*u[X(0,0,1,0)*xi]])*(u'(0,0,1,0))/1
  +(-E[xi*u[X(0,1,0,0)*xi]])*(u'(0,1,0,0))/1
"#;

const PHI4_2D_REPORT: &str = r#"report 1
rule u 5 5
  1
  xi
  u
  u*u
  u*u*u
trees 9
tree 1 [xi]
degree -2-k
symmetry 1
constant 0
differential u 1
tree 2 [X(0,0,1)*xi]
degree -1-k
symmetry 1
constant 0
differential u 0
tree 3 [X(0,1,0)*xi]
degree -1-k
symmetry 1
constant 0
differential u 0
tree 4 [u[xi]*u[xi]*u[xi]]
degree -3*k
symmetry 6
constant 0
differential u -6
tree 5 [u[xi]*u[xi]]
degree -2*k
symmetry 2
constant -E[u[xi]*u[xi]]
differential u -6*u
tree 6 [X(0,0,2)*xi]
degree -k
symmetry 1
constant 0
differential u 0
tree 7 [X(0,1,1)*xi]
degree -k
symmetry 1
constant 0
differential u 0
tree 8 [X(0,2,0)*xi]
degree -k
symmetry 1
constant 0
differential u 0
tree 9 [X(1,0,0)*xi]
degree -k
symmetry 1
constant 0
differential u 0
equation u
  (xi-u^3)/1
  +(-E[u[xi]*u[xi]])*(-6*u)/2
"#;

const PHI4_2D_TWO_NOISES_REPORT: &str = r#"report 1
rule u 6 6
  1
  xi
  eta
  u
  u*u
  u*u*u
trees 21
tree 1 [xi]
degree -2-k
symmetry 1
constant 0
differential u 1
tree 2 [eta]
degree -2-k
symmetry 1
constant 0
differential u 1
tree 3 [X(0,0,1)*xi]
degree -1-k
symmetry 1
constant 0
differential u 0
tree 4 [X(0,0,1)*eta]
degree -1-k
symmetry 1
constant 0
differential u 0
tree 5 [X(0,1,0)*xi]
degree -1-k
symmetry 1
constant 0
differential u 0
tree 6 [X(0,1,0)*eta]
degree -1-k
symmetry 1
constant 0
differential u 0
tree 7 [u[xi]*u[xi]*u[xi]]
degree -3*k
symmetry 6
constant 0
differential u -6
tree 8 [u[xi]*u[xi]*u[eta]]
degree -3*k
symmetry 2
constant 0
differential u -6
tree 9 [u[xi]*u[eta]*u[eta]]
degree -3*k
symmetry 2
constant 0
differential u -6
tree 10 [u[eta]*u[eta]*u[eta]]
degree -3*k
symmetry 6
constant 0
differential u -6
tree 11 [u[xi]*u[xi]]
degree -2*k
symmetry 2
constant -E[u[xi]*u[xi]]
differential u -6*u
tree 12 [u[xi]*u[eta]]
degree -2*k
symmetry 1
constant 0
differential u -6*u
tree 13 [u[eta]*u[eta]]
degree -2*k
symmetry 2
constant -E[u[eta]*u[eta]]
differential u -6*u
tree 14 [X(0,0,2)*xi]
degree -k
symmetry 1
constant 0
differential u 0
tree 15 [X(0,0,2)*eta]
degree -k
symmetry 1
constant 0
differential u 0
tree 16 [X(0,1,1)*xi]
degree -k
symmetry 1
constant 0
differential u 0
tree 17 [X(0,1,1)*eta]
degree -k
symmetry 1
constant 0
differential u 0
tree 18 [X(0,2,0)*xi]
degree -k
symmetry 1
constant 0
differential u 0
tree 19 [X(0,2,0)*eta]
degree -k
symmetry 1
constant 0
differential u 0
tree 20 [X(1,0,0)*xi]
degree -k
symmetry 1
constant 0
differential u 0
tree 21 [X(1,0,0)*eta]
degree -k
symmetry 1
constant 0
differential u 0
equation u
  (xi+eta-u^3)/1
  +(-E[u[xi]*u[xi]])*(-6*u)/2
  +(-E[u[eta]*u[eta]])*(-6*u)/2
"#;

const PHI4_3D_REPORT: &str = r#"report 1
rule u 5 8
  1
  xi
  u
  u'(0,0,0,1)
  u'(0,0,1,0)
  u'(0,1,0,0)
  u*u
  u*u*u
trees 43
tree 1 [xi]
degree -5/2-k
symmetry 1
constant 0
differential u 1
tree 2 [u[xi]*u[xi]*u[xi]]
degree -3/2-3*k
symmetry 6
constant 0
differential u -6
tree 3 [X(0,0,0,1)*xi]
degree -3/2-k
symmetry 1
constant 0
differential u 0
tree 4 [X(0,0,1,0)*xi]
degree -3/2-k
symmetry 1
constant 0
differential u 0
tree 5 [X(0,1,0,0)*xi]
degree -3/2-k
symmetry 1
constant 0
differential u 0
tree 6 [u[xi]*u[xi]]
degree -1-2*k
symmetry 2
constant -E[u[xi]*u[xi]]
differential u -6*u
tree 7 [u[xi]*u[xi]*u[u[xi]*u[xi]*u[xi]]]
degree -1/2-5*k
symmetry 12
constant 0
differential u 36
tree 8 [u[xi]*u[xi]*u[X(0,0,0,1)*xi]]
degree -1/2-3*k
symmetry 2
constant 0
differential u 0
tree 9 [u[xi]*u[xi]*u[X(0,0,1,0)*xi]]
degree -1/2-3*k
symmetry 2
constant 0
differential u 0
tree 10 [u[xi]*u[xi]*u[X(0,1,0,0)*xi]]
degree -1/2-3*k
symmetry 2
constant 0
differential u 0
tree 11 [X(0,0,0,1)*u[xi]*u[xi]*u[xi]]
degree -1/2-3*k
symmetry 6
constant 0
differential u 0
tree 12 [X(0,0,1,0)*u[xi]*u[xi]*u[xi]]
degree -1/2-3*k
symmetry 6
constant 0
differential u 0
tree 13 [X(0,1,0,0)*u[xi]*u[xi]*u[xi]]
degree -1/2-3*k
symmetry 6
constant 0
differential u 0
tree 14 [u[xi]*u[xi]*u[u'(0,0,0,1)[xi]]]
degree -1/2-3*k
symmetry 2
constant 0
differential u 0
tree 15 [u[xi]*u[xi]*u[u'(0,0,1,0)[xi]]]
degree -1/2-3*k
symmetry 2
constant 0
differential u 0
tree 16 [u[xi]*u[xi]*u[u'(0,1,0,0)[xi]]]
degree -1/2-3*k
symmetry 2
constant 0
differential u 0
tree 17 [X(0,0,0,2)*xi]
degree -1/2-k
symmetry 1
constant 0
differential u 0
tree 18 [X(0,0,1,1)*xi]
degree -1/2-k
symmetry 1
constant 0
differential u 0
tree 19 [X(0,0,2,0)*xi]
degree -1/2-k
symmetry 1
constant 0
differential u 0
tree 20 [X(0,1,0,1)*xi]
degree -1/2-k
symmetry 1
constant 0
differential u 0
tree 21 [X(0,1,1,0)*xi]
degree -1/2-k
symmetry 1
constant 0
differential u 0
tree 22 [X(0,2,0,0)*xi]
degree -1/2-k
symmetry 1
constant 0
differential u 0
tree 23 [X(1,0,0,0)*xi]
degree -1/2-k
symmetry 1
constant 0
differential u 0
tree 24 [X(0,0,0,1)*u'(0,0,0,1)[xi]]
degree -1/2-k
symmetry 1
constant 0
differential u 0
tree 25 [X(0,0,0,1)*u'(0,0,1,0)[xi]]
degree -1/2-k
symmetry 1
constant 0
differential u 0
tree 26 [X(0,0,0,1)*u'(0,1,0,0)[xi]]
degree -1/2-k
symmetry 1
constant 0
differential u 0
tree 27 [X(0,0,1,0)*u'(0,0,0,1)[xi]]
degree -1/2-k
symmetry 1
constant 0
differential u 0
tree 28 [X(0,0,1,0)*u'(0,0,1,0)[xi]]
degree -1/2-k
symmetry 1
constant 0
differential u 0
tree 29 [X(0,0,1,0)*u'(0,1,0,0)[xi]]
degree -1/2-k
symmetry 1
constant 0
differential u 0
tree 30 [X(0,1,0,0)*u'(0,0,0,1)[xi]]
degree -1/2-k
symmetry 1
constant 0
differential u 0
tree 31 [X(0,1,0,0)*u'(0,0,1,0)[xi]]
degree -1/2-k
symmetry 1
constant 0
differential u 0
tree 32 [X(0,1,0,0)*u'(0,1,0,0)[xi]]
degree -1/2-k
symmetry 1
constant 0
differential u 0
tree 33 [u[xi]*u[xi]*u[u[xi]*u[xi]]]
degree -4*k
symmetry 4
constant -E[u[xi]*u[xi]*u[u[xi]*u[xi]]]+E[u[xi]*u[xi]]*E[u[]*u[xi]*u[xi]]+E[u[xi]*u[xi]]*E[u[u[xi]*u[xi]]]-E[u[]]*E[u[xi]*u[xi]]^2
differential u 36*u
tree 34 [u[xi]*u[u[xi]*u[xi]*u[xi]]]
degree -4*k
symmetry 6
constant -E[u[xi]*u[u[xi]*u[xi]*u[xi]]]+3*E[u[xi]*u[xi]]*E[u[xi]*u[u[xi]]]
differential u 36*u
tree 35 [u[xi]*u[X(0,0,0,1)*xi]]
degree -2*k
symmetry 1
constant -E[u[xi]*u[X(0,0,0,1)*xi]]
differential u 0
tree 36 [u[xi]*u[X(0,0,1,0)*xi]]
degree -2*k
symmetry 1
constant -E[u[xi]*u[X(0,0,1,0)*xi]]
differential u 0
tree 37 [u[xi]*u[X(0,1,0,0)*xi]]
degree -2*k
symmetry 1
constant -E[u[xi]*u[X(0,1,0,0)*xi]]
differential u 0
tree 38 [X(0,0,0,1)*u[xi]*u[xi]]
degree -2*k
symmetry 2
constant 0
differential u -6*u'(0,0,0,1)
tree 39 [X(0,0,1,0)*u[xi]*u[xi]]
degree -2*k
symmetry 2
constant 0
differential u -6*u'(0,0,1,0)
tree 40 [X(0,1,0,0)*u[xi]*u[xi]]
degree -2*k
symmetry 2
constant 0
differential u -6*u'(0,1,0,0)
tree 41 [u[xi]*u[u'(0,0,0,1)[xi]]]
degree -2*k
symmetry 1
constant -E[u[xi]*u[u'(0,0,0,1)[xi]]]
differential u 0
tree 42 [u[xi]*u[u'(0,0,1,0)[xi]]]
degree -2*k
symmetry 1
constant -E[u[xi]*u[u'(0,0,1,0)[xi]]]
differential u 0
tree 43 [u[xi]*u[u'(0,1,0,0)[xi]]]
degree -2*k
symmetry 1
constant -E[u[xi]*u[u'(0,1,0,0)[xi]]]
differential u 0
equation u
  (xi-u^3)/1
  +(-E[u[xi]*u[xi]])*(-6*u)/2
  +(-E[u[xi]*u[xi]*u[u[xi]*u[xi]]]+E[u[xi]*u[xi]]*E[u[]*u[xi]*u[xi]]+E[u[xi]*u[xi]]*E[u[u[xi]*u[xi]]]-E[u[]]*E[u[xi]*u[xi]]^2)*(36*u)/4
  +(-E[u[xi]*u[u[xi]*u[xi]*u[xi]]]+3*E[u[xi]*u[xi]]*E[u[xi]*u[u[xi]]])*(36*u)/6
"#;

const PHI4_3D_MEAN_ZERO_REPORT: &str = r#"report 1
rule u 5 8
  1
  xi
  u
  u'(0,0,0,1)
  u'(0,0,1,0)
  u'(0,1,0,0)
  u*u
  u*u*u
trees 43
tree 1 [xi]
degree -5/2-k
symmetry 1
constant 0
differential u 1
tree 2 [u[xi]*u[xi]*u[xi]]
degree -3/2-3*k
symmetry 6
constant 0
differential u -6
tree 3 [X(0,0,0,1)*xi]
degree -3/2-k
symmetry 1
constant 0
differential u 0
tree 4 [X(0,0,1,0)*xi]
degree -3/2-k
symmetry 1
constant 0
differential u 0
tree 5 [X(0,1,0,0)*xi]
degree -3/2-k
symmetry 1
constant 0
differential u 0
tree 6 [u[xi]*u[xi]]
degree -1-2*k
symmetry 2
constant -E[u[xi]*u[xi]]
differential u -6*u
tree 7 [u[xi]*u[xi]*u[u[xi]*u[xi]*u[xi]]]
degree -1/2-5*k
symmetry 12
constant 0
differential u 36
tree 8 [u[xi]*u[xi]*u[X(0,0,0,1)*xi]]
degree -1/2-3*k
symmetry 2
constant 0
differential u 0
tree 9 [u[xi]*u[xi]*u[X(0,0,1,0)*xi]]
degree -1/2-3*k
symmetry 2
constant 0
differential u 0
tree 10 [u[xi]*u[xi]*u[X(0,1,0,0)*xi]]
degree -1/2-3*k
symmetry 2
constant 0
differential u 0
tree 11 [X(0,0,0,1)*u[xi]*u[xi]*u[xi]]
degree -1/2-3*k
symmetry 6
constant 0
differential u 0
tree 12 [X(0,0,1,0)*u[xi]*u[xi]*u[xi]]
degree -1/2-3*k
symmetry 6
constant 0
differential u 0
tree 13 [X(0,1,0,0)*u[xi]*u[xi]*u[xi]]
degree -1/2-3*k
symmetry 6
constant 0
differential u 0
tree 14 [u[xi]*u[xi]*u[u'(0,0,0,1)[xi]]]
degree -1/2-3*k
symmetry 2
constant 0
differential u 0
tree 15 [u[xi]*u[xi]*u[u'(0,0,1,0)[xi]]]
degree -1/2-3*k
symmetry 2
constant 0
differential u 0
tree 16 [u[xi]*u[xi]*u[u'(0,1,0,0)[xi]]]
degree -1/2-3*k
symmetry 2
constant 0
differential u 0
tree 17 [X(0,0,0,2)*xi]
degree -1/2-k
symmetry 1
constant 0
differential u 0
tree 18 [X(0,0,1,1)*xi]
degree -1/2-k
symmetry 1
constant 0
differential u 0
tree 19 [X(0,0,2,0)*xi]
degree -1/2-k
symmetry 1
constant 0
differential u 0
tree 20 [X(0,1,0,1)*xi]
degree -1/2-k
symmetry 1
constant 0
differential u 0
tree 21 [X(0,1,1,0)*xi]
degree -1/2-k
symmetry 1
constant 0
differential u 0
tree 22 [X(0,2,0,0)*xi]
degree -1/2-k
symmetry 1
constant 0
differential u 0
tree 23 [X(1,0,0,0)*xi]
degree -1/2-k
symmetry 1
constant 0
differential u 0
tree 24 [X(0,0,0,1)*u'(0,0,0,1)[xi]]
degree -1/2-k
symmetry 1
constant 0
differential u 0
tree 25 [X(0,0,0,1)*u'(0,0,1,0)[xi]]
degree -1/2-k
symmetry 1
constant 0
differential u 0
tree 26 [X(0,0,0,1)*u'(0,1,0,0)[xi]]
degree -1/2-k
symmetry 1
constant 0
differential u 0
tree 27 [X(0,0,1,0)*u'(0,0,0,1)[xi]]
degree -1/2-k
symmetry 1
constant 0
differential u 0
tree 28 [X(0,0,1,0)*u'(0,0,1,0)[xi]]
degree -1/2-k
symmetry 1
constant 0
differential u 0
tree 29 [X(0,0,1,0)*u'(0,1,0,0)[xi]]
degree -1/2-k
symmetry 1
constant 0
differential u 0
tree 30 [X(0,1,0,0)*u'(0,0,0,1)[xi]]
degree -1/2-k
symmetry 1
constant 0
differential u 0
tree 31 [X(0,1,0,0)*u'(0,0,1,0)[xi]]
degree -1/2-k
symmetry 1
constant 0
differential u 0
tree 32 [X(0,1,0,0)*u'(0,1,0,0)[xi]]
degree -1/2-k
symmetry 1
constant 0
differential u 0
tree 33 [u[xi]*u[xi]*u[u[xi]*u[xi]]]
degree -4*k
symmetry 4
constant -E[u[xi]*u[xi]*u[u[xi]*u[xi]]]+E[u[xi]*u[xi]]*E[u[u[xi]*u[xi]]]
differential u 36*u
tree 34 [u[xi]*u[u[xi]*u[xi]*u[xi]]]
degree -4*k
symmetry 6
constant -E[u[xi]*u[u[xi]*u[xi]*u[xi]]]+3*E[u[xi]*u[xi]]*E[u[xi]*u[u[xi]]]
differential u 36*u
tree 35 [u[xi]*u[X(0,0,0,1)*xi]]
degree -2*k
symmetry 1
constant -E[u[xi]*u[X(0,0,0,1)*xi]]
differential u 0
tree 36 [u[xi]*u[X(0,0,1,0)*xi]]
degree -2*k
symmetry 1
constant -E[u[xi]*u[X(0,0,1,0)*xi]]
differential u 0
tree 37 [u[xi]*u[X(0,1,0,0)*xi]]
degree -2*k
symmetry 1
constant -E[u[xi]*u[X(0,1,0,0)*xi]]
differential u 0
tree 38 [X(0,0,0,1)*u[xi]*u[xi]]
degree -2*k
symmetry 2
constant 0
differential u -6*u'(0,0,0,1)
tree 39 [X(0,0,1,0)*u[xi]*u[xi]]
degree -2*k
symmetry 2
constant 0
differential u -6*u'(0,0,1,0)
tree 40 [X(0,1,0,0)*u[xi]*u[xi]]
degree -2*k
symmetry 2
constant 0
differential u -6*u'(0,1,0,0)
tree 41 [u[xi]*u[u'(0,0,0,1)[xi]]]
degree -2*k
symmetry 1
constant -E[u[xi]*u[u'(0,0,0,1)[xi]]]
differential u 0
tree 42 [u[xi]*u[u'(0,0,1,0)[xi]]]
degree -2*k
symmetry 1
constant -E[u[xi]*u[u'(0,0,1,0)[xi]]]
differential u 0
tree 43 [u[xi]*u[u'(0,1,0,0)[xi]]]
degree -2*k
symmetry 1
constant -E[u[xi]*u[u'(0,1,0,0)[xi]]]
differential u 0
equation u
  (xi-u^3)/1
  +(-E[u[xi]*u[xi]])*(-6*u)/2
  +(-E[u[xi]*u[xi]*u[u[xi]*u[xi]]]+E[u[xi]*u[xi]]*E[u[u[xi]*u[xi]]])*(36*u)/4
  +(-E[u[xi]*u[u[xi]*u[xi]*u[xi]]]+3*E[u[xi]*u[xi]]*E[u[xi]*u[u[xi]]])*(36*u)/6
"#;

#[test]
fn reports_of_examples(rt: HostRuntime) -> Result<(), Fail> {
    let reports = [
        (
            BURGERS_SYSTEM,
            BURGERS_SYSTEM_REPORT,
            "reused 0 computed 8\n",
        ),
        (COUPLED_KPZ, COUPLED_KPZ_REPORT, "reused 0 computed 46\n"),
        (
            EMPTY_RIGHT_SIDE,
            EMPTY_RIGHT_SIDE_REPORT,
            "reused 0 computed 0\n",
        ),
        (KPZ, KPZ_REPORT, "reused 0 computed 9\n"),
        (KPZ_SYMMETRIC, KPZ_SYMMETRIC_REPORT, "reused 0 computed 9\n"),
        (PAM_2D, PAM_2D_REPORT, "reused 0 computed 4\n"),
        (
            PAM_2D_QUADRATIC,
            PAM_2D_QUADRATIC_REPORT,
            "reused 0 computed 4\n",
        ),
        (PAM_3D, PAM_3D_REPORT, "reused 0 computed 16\n"),
        (PHI4_2D, PHI4_2D_REPORT, "reused 0 computed 9\n"),
        (
            PHI4_2D_TWO_NOISES,
            PHI4_2D_TWO_NOISES_REPORT,
            "reused 0 computed 21\n",
        ),
        (PHI4_3D, PHI4_3D_REPORT, "reused 0 computed 43\n"),
        (
            PHI4_3D_MEAN_ZERO,
            PHI4_3D_MEAN_ZERO_REPORT,
            "reused 0 computed 43\n",
        ),
    ];
    for (file, report, note) in reports {
        let run = report_of(rt.alloc(), file.as_bytes())?;
        assert_eq!(rt; run.err.as_slice(), note.as_bytes());
        assert_eq!(rt; run.out.as_slice(), report.as_bytes());
        assert_eq!(rt; run.code, 0);
    }
    Ok(())
}
