// Theory alone: the generators. Definitions stand in specs/, with the laws by which they are worked out; theorems in proofs/.
