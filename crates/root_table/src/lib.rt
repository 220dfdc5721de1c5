// The table of the square roots of the counts 1 to 52 (document 02, #109): local noise takes its roots from here and from nowhere else.
// Definitions in specs/; crate `root` works each one out anew, without this table.
#![tactic(auto)]

ghost use Rattle.std.specs.Prelude.{◌≡◌};
ghost use Rattle.root_table.specs.Table.{roots_of, NearestRoots};

// The f32 nearest √n at place n - 1, beside it n and its bits as the program `roots` prints them.
const ROOTS: [f32; 52] = [
    1.0, // 1 3f800000
    1.4142135, // 2 3fb504f3
    1.7320508, // 3 3fddb3d7
    2.0, // 4 40000000
    2.236068, // 5 400f1bbd
    2.4494898, // 6 401cc471
    2.6457512, // 7 402953fd
    2.828427, // 8 403504f3
    3.0, // 9 40400000
    3.1622777, // 10 404a62c2
    3.3166249, // 11 40544395
    3.4641016, // 12 405db3d7
    3.6055512, // 13 4066c15a
    3.7416575, // 14 406f7751
    3.8729835, // 15 4077def6
    4.0, // 16 40800000
    4.1231055, // 17 4083f07b
    4.2426405, // 18 4087c3b6
    4.358899, // 19 408b7c1a
    4.472136, // 20 408f1bbd
    4.582576, // 21 4092a476
    4.690416, // 22 409617e3
    4.7958317, // 23 40997774
    4.8989797, // 24 409cc471
    5.0, // 25 40a00000
    5.0990195, // 26 40a32b2b
    5.196152, // 27 40a646e1
    5.2915025, // 28 40a953fd
    5.3851647, // 29 40ac5345
    5.477226, // 30 40af456f
    5.5677643, // 31 40b22b20
    5.656854, // 32 40b504f3
    5.7445626, // 33 40b7d375
    5.8309517, // 34 40ba9728
    5.91608, // 35 40bd5087
    6.0, // 36 40c00000
    6.0827627, // 37 40c2a5fe
    6.164414, // 38 40c542e1
    6.244998, // 39 40c7d706
    6.3245554, // 40 40ca62c2
    6.4031243, // 41 40cce665
    6.4807405, // 42 40cf623a
    6.5574384, // 43 40d1d689
    6.6332498, // 44 40d44395
    6.708204, // 45 40d6a99b
    6.78233, // 46 40d908d9
    6.8556547, // 47 40db6186
    6.928203, // 48 40ddb3d7
    7.0, // 49 40e00000
    7.071068, // 50 40e24630
    7.1414285, // 51 40e48695
    7.2111025, // 52 40e6c15a
];

// Inside: the table. Each call makes a copy, so it is taken once, before a loop.
pub fn roots() -> [f32; 52]
    ensures nearest { NearestRoots result }
    ensures worked_out { result ≡ roots_of }
{
    ROOTS
}
