// Theory alone: worked cases of the definitions, computed. They stand in specs/, apart from the theorems.
