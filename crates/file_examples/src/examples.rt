// The check texts of files of examples/, which stand here without their comments.
use std::alloc::Global;
use workbench_core::check;

const KPZ_GENERALISED: (&str, &str) = (
    "version = 1\nscaling = [2, 1]\nparameters = [\"a0\", \"a1\", \"a2\", \"b0\", \"b1\", \"b2\", \"b3\"]\n\n[[noise]]\nname = \"xi\"\ndegree = \"-3/2-k\"\n\n[[unknown]]\nname = \"u\"\ndegree = \"2\"\nregularity = \"1/4\"\nright = \"a0*u'(0,1)^2 + a1*u*u'(0,1)^2 + a2*u^2*u'(0,1)^2 + b0*xi + b1*u*xi + b2*u^2*xi + b3*u^3*xi\"\n",
    "accepted\nrule u 14\n  1: 1/4 < 2\n  xi: 1/4 < 1/2\n  u: 1/4 < 9/4\n  u'(0,1): 1/4 < 5/4\n  xi*u: 1/4 < 3/4\n  u*u: 1/4 < 5/2\n  u*u'(0,1): 1/4 < 3/2\n  u'(0,1)*u'(0,1): 1/4 < 1/2\n  xi*u*u: 1/4 < 1\n  u*u*u: 1/4 < 11/4\n  u*u*u'(0,1): 1/4 < 7/4\n  u*u'(0,1)*u'(0,1): 1/4 < 3/4\n  xi*u*u*u: 1/4 < 5/4\n  u*u*u'(0,1)*u'(0,1): 1/4 < 1\ngap 1/4\n",
);

const BURGERS_SYSTEM: (&str, &str) = (
    "version = 1\nscaling = [2, 1]\nparameters = [\"a\", \"b\", \"c\"]\n\n[[noise]]\nname = \"xi\"\ndegree = \"-3/2-k\"\n\n[[noise]]\nname = \"eta\"\ndegree = \"-3/2-k\"\n\n[[unknown]]\nname = \"u\"\ndegree = \"2\"\nregularity = \"1/4\"\nright = \"u*u'(0,1) + a*v*v'(0,1) + xi\"\n\n[[unknown]]\nname = \"v\"\ndegree = \"2\"\nregularity = \"1/4\"\nright = \"b*u*v'(0,1) + c*v*u'(0,1) + eta\"\n",
    "accepted\nrule u 8\n  1: 1/4 < 2\n  xi: 1/4 < 1/2\n  u: 1/4 < 9/4\n  u'(0,1): 1/4 < 5/4\n  v: 1/4 < 9/4\n  v'(0,1): 1/4 < 5/4\n  u*u'(0,1): 1/4 < 3/2\n  v*v'(0,1): 1/4 < 3/2\nrule v 8\n  1: 1/4 < 2\n  eta: 1/4 < 1/2\n  u: 1/4 < 9/4\n  u'(0,1): 1/4 < 5/4\n  v: 1/4 < 9/4\n  v'(0,1): 1/4 < 5/4\n  u*v'(0,1): 1/4 < 3/2\n  u'(0,1)*v: 1/4 < 3/2\ngap 1/4\n",
);

const PAM_3D: (&str, &str) = (
    "version = 1\nscaling = [2, 1, 1, 1]\n\n[[noise]]\nname = \"xi\"\ndegree = \"-3/2-k\"\n\n[[unknown]]\nname = \"u\"\ndegree = \"2\"\nregularity = \"1/4\"\nright = \"u*xi\"\n",
    "accepted\nrule u 4\n  1: 1/4 < 2\n  xi: 1/4 < 1/2\n  u: 1/4 < 9/4\n  xi*u: 1/4 < 3/4\ngap 1/4\n",
);

const KPZ_FOUR_COMPONENTS: (&str, &str) = (
    "version = 1\nscaling = [2, 1]\n\n[[noise]]\nname = \"x1\"\ndegree = \"-3/2-k\"\n\n[[noise]]\nname = \"x2\"\ndegree = \"-3/2-k\"\n\n[[noise]]\nname = \"x3\"\ndegree = \"-3/2-k\"\n\n[[noise]]\nname = \"x4\"\ndegree = \"-3/2-k\"\n\n[[unknown]]\nname = \"u1\"\ndegree = \"2\"\nregularity = \"1/4\"\nright = \"2*u1'(0,1)^2 + 7*u1'(0,1)*u2'(0,1) + 5*u1'(0,1)*u3'(0,1) + 3*u1'(0,1)*u4'(0,1) + x1\"\n\n[[unknown]]\nname = \"u2\"\ndegree = \"2\"\nregularity = \"1/4\"\nright = \"5*u2'(0,1)*u1'(0,1) + 3*u2'(0,1)^2 + u2'(0,1)*u3'(0,1) + 6*u2'(0,1)*u4'(0,1) + x2\"\n\n[[unknown]]\nname = \"u3\"\ndegree = \"2\"\nregularity = \"1/4\"\nright = \"u3'(0,1)*u1'(0,1) + 6*u3'(0,1)*u2'(0,1) + 4*u3'(0,1)^2 + 2*u3'(0,1)*u4'(0,1) + x3\"\n\n[[unknown]]\nname = \"u4\"\ndegree = \"2\"\nregularity = \"1/4\"\nright = \"4*u4'(0,1)*u1'(0,1) + 2*u4'(0,1)*u2'(0,1) + 7*u4'(0,1)*u3'(0,1) + 5*u4'(0,1)^2 + x4\"\n",
    "accepted\nrule u1 10\n  1: 1/4 < 2\n  x1: 1/4 < 1/2\n  u1'(0,1): 1/4 < 5/4\n  u2'(0,1): 1/4 < 5/4\n  u3'(0,1): 1/4 < 5/4\n  u4'(0,1): 1/4 < 5/4\n  u1'(0,1)*u1'(0,1): 1/4 < 1/2\n  u1'(0,1)*u2'(0,1): 1/4 < 1/2\n  u1'(0,1)*u3'(0,1): 1/4 < 1/2\n  u1'(0,1)*u4'(0,1): 1/4 < 1/2\nrule u2 10\n  1: 1/4 < 2\n  x2: 1/4 < 1/2\n  u1'(0,1): 1/4 < 5/4\n  u2'(0,1): 1/4 < 5/4\n  u3'(0,1): 1/4 < 5/4\n  u4'(0,1): 1/4 < 5/4\n  u1'(0,1)*u2'(0,1): 1/4 < 1/2\n  u2'(0,1)*u2'(0,1): 1/4 < 1/2\n  u2'(0,1)*u3'(0,1): 1/4 < 1/2\n  u2'(0,1)*u4'(0,1): 1/4 < 1/2\nrule u3 10\n  1: 1/4 < 2\n  x3: 1/4 < 1/2\n  u1'(0,1): 1/4 < 5/4\n  u2'(0,1): 1/4 < 5/4\n  u3'(0,1): 1/4 < 5/4\n  u4'(0,1): 1/4 < 5/4\n  u1'(0,1)*u3'(0,1): 1/4 < 1/2\n  u2'(0,1)*u3'(0,1): 1/4 < 1/2\n  u3'(0,1)*u3'(0,1): 1/4 < 1/2\n  u3'(0,1)*u4'(0,1): 1/4 < 1/2\nrule u4 10\n  1: 1/4 < 2\n  x4: 1/4 < 1/2\n  u1'(0,1): 1/4 < 5/4\n  u2'(0,1): 1/4 < 5/4\n  u3'(0,1): 1/4 < 5/4\n  u4'(0,1): 1/4 < 5/4\n  u1'(0,1)*u4'(0,1): 1/4 < 1/2\n  u2'(0,1)*u4'(0,1): 1/4 < 1/2\n  u3'(0,1)*u4'(0,1): 1/4 < 1/2\n  u4'(0,1)*u4'(0,1): 1/4 < 1/2\ngap 1/4\n",
);

// Whether the check of a file gives this text.
fn is_accepted(alloc: Global, file: &str, text: &str) -> bool {
    match check(alloc, file.as_bytes()) {
        Ok(found) => found.as_slice() == text.as_bytes(),
        Err(_) => false,
    }
}

#[test]
fn examples_are_accepted(rt: HostRuntime) {
    for (file, text) in [KPZ_GENERALISED, BURGERS_SYSTEM, PAM_3D, KPZ_FOUR_COMPONENTS] {
        assert!(rt; is_accepted(rt.alloc(), file, text), "{file}");
    }
}
