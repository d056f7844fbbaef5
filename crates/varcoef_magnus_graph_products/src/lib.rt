// Products with node weights (varcoef_magnus_graph.rs, graph_var_coef.rs; 01, part 5).
#![tactic(auto)]

pub mod kernel;
